// The head, the first command.
ghost use Rattle.std.specs.Prelude.{◌≡◌, ◌<◌, MatchOption};
ghost use Rattle.format.specs.Format.{head_fits, head_of};
ghost use Rattle.format.specs.Numbers.{kind_value};
ghost use Rattle.format.specs.Told.{head_told};

use format::{Fault, Head, Kind};

// The command byte of a head.
const HEAD_BYTE: u8 = 1;

// A question has at most this many variables.
const MOST_VARIABLES: usize = 12;

// The kind that a byte says.
fn kind_of(byte: u8) -> Option<Kind>
    ensures { MatchOption result (1 < byte) (λ kind. byte ≡ kind_value kind) }
{
    match byte {
        0 => Some(Kind::Satisfiability),
        1 => Some(Kind::Entailment),
        _ => None,
    }
}

// Whether so many variables may stand in a question of this kind, which has no own ones where it is of satisfiability.
#[tactic(auto, using(crate::proofs::CommandFacts::too_many), unfolding(format::specs::Format::head_fits))]
fn head_fits(kind: Kind, free: usize, own: usize) -> bool
    requires { (free < 256) × (own < 256) }
    ensures { result ≡ head_fits (kind_value kind) free own }
{
    if MOST_VARIABLES < free + own {
        return false;
    }
    match kind {
        Kind::Satisfiability => own == 0,
        Kind::Entailment => true,
    }
}

#[tactic(auto, unfolding(format::specs::Format::head_of))]
pub fn read_head(bytes: &[u8]) -> Result<Head, Fault>
    ensures { head_told result ≡ head_of bytes.now }
{
    if bytes.len() < 1 {
        return Err(Fault::NoHead);
    }
    if bytes[0] != HEAD_BYTE {
        return Err(Fault::NoHead);
    }
    if bytes.len() < 4 {
        return Err(Fault::CutShort);
    }
    let Some(kind) = kind_of(bytes[1]) else {
        return Err(Fault::UnfitHead);
    };
    let free = usize::from(bytes[2]);
    let own = usize::from(bytes[3]);
    if head_fits(kind, free, own) {
        return Ok(Head { kind, free, own });
    }
    Err(Fault::UnfitHead)
}
