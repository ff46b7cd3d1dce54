// The verdict on a proof, through the reader: its contract is the judgement itself, and no model of the reader is in it.
#![tactic(auto)]

mod kept;

ghost use Rattle.std.specs.Prelude.{◌≡◌};
ghost use Rattle.sha256.specs.Sha256.{sha256};
ghost use Rattle.fri.specs.Judge as judge;

use answer::Answer;
use kept::Kept;
use params::Terms;

// The proof in one piece.
pub fn whole(a: Terms, proof: &[u8]) -> Answer
    ensures { result ≡ judge.verdict sha256 a proof.now }
{
    in_pieces(a, proof, proof.len())
}

// The proof in pieces of `size` bytes, one byte at least.
pub fn in_pieces(a: Terms, proof: &[u8], size: usize) -> Answer
    ensures { result ≡ judge.verdict sha256 a proof.now }
{
    let mut reader = Kept::default();
    if let Err(refusal) = reader.open(a) {
        return refusal.at(0);
    }
    for part in proof.chunks(size.max(1)) {
        reader.piece(part);
    }
    reader.end()
}
