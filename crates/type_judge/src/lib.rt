// The rules that image, plan and boot roll have in common: 4 and 5 of image and plan, 12 of all three, 10 and 11 of plan and boot roll. The
// image reader judges 10 and 11 in its own walk (`eif_judge`), which is left from inside the check of earlier types; the definition is one.
// A caller lends the types of the sections that stand before, or of all sections, in file order.
#![tactic(auto)]

ghost use Rattle.std.specs.Prelude.{◌≡◌, length};
ghost use Rattle.eif.specs.Rules.{field_fault, seen, order_fault, boot_missing, missing};
ghost use Rattle.type_judge.specs.Kinds.{listed_kind};

use eif::{Refusal, SectionType};

// The rules 4 and 5, on a version and a number of sections; 0: neither applies.
pub fn field_fault(version: u16, count: u16) -> u8
    ensures { result ≡ field_fault version count }
{
    if version < eif::OLDEST_VERSION {
        return Refusal::WRONG_VERSION;
    }
    if eif::NEWEST_VERSION < version {
        return Refusal::WRONG_VERSION;
    }
    if count < eif::FEWEST_SECTIONS {
        return Refusal::WRONG_COUNT;
    }
    if eif::PLACES < count as usize {
        return Refusal::WRONG_COUNT;
    }
    0
}

// Whether one of the types is the given one.
pub fn holds(kinds: &[u16], kind: u16) -> bool
    ensures { result ≡ seen (listed_kind kinds.now) kind (length kinds.now) }
{
    let mut j = kinds.len();
    while 0 < j {
        j -= 1;
        if kinds[j] == kind {
            return true;
        }
    }
    false
}

// The rules 10 and 11 at a section of a type, after sections of the types before it; 0: neither applies.
pub fn order_fault(kinds: &[u16], kind: u16) -> u8
    ensures { result ≡ order_fault (listed_kind kinds.now) kind (length kinds.now) }
{
    if kind == SectionType::RAMDISK {
        if holds(kinds, SectionType::KERNEL) {
            return 0;
        }
        return Refusal::RAMDISK_BEFORE_KERNEL;
    }
    if holds(kinds, kind) {
        return Refusal::TYPE_REPEATED;
    }
    0
}

// Rule 12 of a roll: whether kernel or command line is missing.
pub fn lacks_boot(kinds: &[u16]) -> bool
    ensures { result ≡ boot_missing (listed_kind kinds.now) (length kinds.now) }
{
    if !holds(kinds, SectionType::KERNEL) {
        return true;
    }
    !holds(kinds, SectionType::COMMAND_LINE)
}

// Rule 12 of an image or a plan: whether one of these is missing, or the metadata that a version asks for.
pub fn lacks(kinds: &[u16], version: u16) -> bool
    ensures { result ≡ missing (listed_kind kinds.now) version (length kinds.now) }
{
    if lacks_boot(kinds) {
        return true;
    }
    if version == eif::METADATA_VERSION {
        return !holds(kinds, SectionType::METADATA);
    }
    false
}
