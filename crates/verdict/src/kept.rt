// A reader as callers in C hold it.
ghost use Rattle.std.specs.Prelude.{◌≡◌, ℕ, List, MatchResult};
ghost use Rattle.sha256.specs.Sha256.{sha256};
ghost use Rattle.answer.specs.Table.{answered};
ghost use Rattle.answer.specs.Refusals.{number_of};
ghost use Rattle.fri.specs.Judge as judge;
ghost use Rattle.reader_model.specs.Model.{fed, ended};
ghost use Rattle.reader_model.specs.declared.Reader.{Reader};
ghost use Rattle.lent_reader.specs.Held.{held, reader_of};

use answer::{Answer, Refusal};
use lent_reader::{SIZES, U8S, U32S};
use params::Terms;
use reader_model::{CHALLENGES, COEFFICIENTS, ROOTS};
use std::marker::Model;

// The nine arrays that the calls are lent; by default zeros, a closed reader. Contracts see the state that they stand for.
#[derive(Default, Drop)]
pub struct Kept {
    u8s: [u8; U8S],
    u32s: [u32; U32S],
    sizes: [usize; SIZES],
    item: [u8; 32],
    node: [u8; 32],
    transcript: [u8; 32],
    roots: [u8; ROOTS],
    challenges: [u32; CHALLENGES],
    coefficients: [u32; COEFFICIENTS],
}

impl Model for Kept {
    ghost Value = { Reader };

    ghost view = { λ r. reader_of (held r.u8s r.u32s r.sizes r.item r.node r.transcript r.roots r.challenges r.coefficients) };
}

impl Kept {
    // What the reader gives at its end is the verdict on what it was fed; a refusal is the verdict on any bytes.
    pub fn open(&mut self, a: Terms) -> Result<(), Refusal>
        ensures { MatchResult result (λ _. (bytes : List ℕ) → (ended (fed sha256 self.new bytes)).answer ≡ judge.verdict sha256 a bytes) (λ refusal. (bytes : List ℕ) → answered (number_of refusal) 0 ≡ judge.verdict sha256 a bytes) }
    {
        params::admitted(a.params)?;
        lent_reader::open(
            a,
            &mut self.u8s,
            &mut self.u32s,
            &mut self.sizes,
            &mut self.item,
            &mut self.node,
            &mut self.transcript,
            &mut self.roots,
            &mut self.challenges,
            &mut self.coefficients,
        );
        Ok(())
    }

    // A piece, of any number of bytes.
    pub fn piece(&mut self, bytes: &[u8])
        ensures { self.new ≡ fed sha256 self.old bytes.now }
    {
        lent_reader::piece(
            &mut self.u8s,
            &mut self.u32s,
            &mut self.sizes,
            &mut self.item,
            bytes,
            &mut self.node,
            &mut self.transcript,
            &mut self.roots,
            &mut self.challenges,
            &mut self.coefficients,
        );
    }

    // The end call.
    pub fn end(&mut self) -> Answer
        ensures { result ≡ (ended self.old).answer }
    {
        lent_reader::end(
            &mut self.u8s,
            &mut self.u32s,
            &mut self.sizes,
            &mut self.item,
            &mut self.node,
            &mut self.transcript,
            &mut self.roots,
            &mut self.challenges,
            &mut self.coefficients,
        )
    }
}
