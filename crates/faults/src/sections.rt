// The places and the limits of sections.
ghost use Rattle.std.specs.Prelude.{◌≡◌};
ghost use Rattle.format.specs.Format.{is_second, most_of};
ghost use Rattle.format.specs.Stored.{section_start};

use basics::{FIRST_DISEQUATIONS, SECOND_DISEQUATIONS, SECOND_POSITIVES};
use format::Section;

// Where each section starts among the clauses' bytes.
pub fn section_start(section: Section) -> usize
    ensures { result ≡ section_start section }
{
    match section {
        Section::FirstPositive => 0,
        Section::FirstDisequation => FIRST_DISEQUATIONS,
        Section::SecondPositive => SECOND_POSITIVES,
        Section::SecondDisequation => SECOND_DISEQUATIONS,
    }
}

// How many clauses a section may have, a row for each section.
pub fn most_of(section: Section) -> usize
    ensures { result ≡ most_of section }
{
    match section {
        Section::FirstPositive => 64,
        Section::FirstDisequation => 31,
        Section::SecondPositive => 64,
        Section::SecondDisequation => 31,
    }
}

pub fn is_second(section: Section) -> bool
    ensures { result ≡ is_second section }
{
    matches!(
        section,
        Section::SecondPositive | Section::SecondDisequation
    )
}
