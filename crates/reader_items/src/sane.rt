// The small part of a reader's state, once its bounds are tested.
ghost use Rattle.std.specs.Prelude.{◌≡◌, true, false, MatchOption};
ghost use Rattle.answer.specs.Refusals.{number_of};
ghost use Rattle.reader_model.specs.State.{place, moved_to};
ghost use Rattle.reader_model.specs.Items.{sane, refused};
ghost use Rattle.reader_items.specs.Private.{Sane};

use crate::state::halt;
use answer::{Answer, Refusal};
use reader_model::{Core, Stage};

// A small part within the bounds that every state of a reader keeps.
#[derive(Clone, Copy)]
pub struct SaneCore {
    pub core: Core,
    pub ghost within: { Sane core },
}

#[tactic(auto, unfolding(reader_model::specs::Items::sane))]
pub fn is_sane(c: Core) -> bool
    ensures { result ≡ sane c }
{
    let cursor = c.cursor;
    (c.fill <= 32)
        & ((cursor.start < 2147483648)
            & ((cursor.coefficient < 64)
                & ((cursor.query < 128)
                    & ((cursor.layer < 16) & ((cursor.value < 4) & (cursor.height < 32))))))
}

impl SaneCore {
    // A caller's state need not keep the bounds, so each item is tested once.
    #[tactic(auto, using(crate::proofs::Laws::sane_bounds))]
    pub fn of(core: Core) -> Option<SaneCore>
        ensures { MatchOption result (sane core ≡ false) (λ s. (s.core ≡ core) × (sane core ≡ true)) }
    {
        if is_sane(core) {
            Some(SaneCore { core })
        } else {
            None
        }
    }

    // The place of the item's last byte.
    fn place(self) -> u32
        ensures { result ≡ place self.core }
    {
        self.core.cursor.start + self.core.fill as u32
    }

    // At the next item, of this stage.
    pub fn moved(self, stage: Stage) -> Core
        ensures { result ≡ moved_to self.core stage }
    {
        let mut next = self.core;
        next.cursor.start = self.place();
        Core {
            stage,
            answer: Answer {
                number: answer::OPEN,
                place: 0,
            },
            fill: 0,
            ..next
        }
    }

    // Refused at the item's last byte.
    #[tactic(auto, unfolding(reader_model::specs::Items::refused))]
    pub fn refused(self, refusal: Refusal) -> Core
        ensures { result ≡ refused self.core (number_of refusal) }
    {
        let place = self.place();
        halt(refusal, place)
    }
}
