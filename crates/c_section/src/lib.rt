// The type-name section for C (2026-14): the reply as three numbers.

#![tactic(auto)]

ghost use Rattle.std.specs.Prelude.{◌≡◌};
ghost use Rattle.record.specs.View.{view};
ghost use Rattle.name_section.specs.Section.{names, section_says};
ghost use Rattle.c_questions.specs.Asked.{options_of};
ghost use Rattle.c_section.specs.Told.{told_used, ToldSection};

use buffers::Refusal;
use name_section::Section;

// The bytes of a section and the number of classes; or why there is none.
#[repr(C)]
#[derive(Clone, Copy)]
pub struct DnSection {
    pub bytes: usize,
    pub classes: usize,
    pub refusal: usize,
}

fn told_section(reply: Result<Section, Refusal>) -> DnSection
    ensures { result ≡ told_used (section_says reply) }
{
    match reply {
        Ok(Section { bytes, classes }) => DnSection {
            bytes,
            classes,
            refusal: 0,
        },
        Err(why) => DnSection {
            bytes: 0,
            classes: 0,
            refusal: buffers::refusal_number(why) as usize,
        },
    }
}

// The section of three streams and the offsets of its slots, and then zeros; zeros alone where it is refused.
pub fn name_section(
    tables: &[u8],
    strings: &[u8],
    blob: &[u8],
    options: u32,
    section: &mut [u8],
    offsets: &mut [u32],
) -> DnSection
    ensures { let v = view (options_of options) tables.now strings.now blob.now in
        ToldSection (names v) section.old offsets.old result section.new offsets.new }
{
    let opened = c_questions::options_of(options);
    told_section(name_section::name_section(tables, strings, blob, opened, section, offsets))
}
