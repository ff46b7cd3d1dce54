// The writer's buffers, step by step: definitions and theorems only.
#![tactic(auto)]
