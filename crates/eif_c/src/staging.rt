// One section of an image replaced and no second image, for programs in C and Rust: where each section's data lies, the roll and the registers of
// the image written afresh with the replacement.
ghost use Rattle.std.specs.Prelude.{◌≡◌, length};
ghost use Rattle.staged.specs.Staged.{staged_roll_answer, staged_roll_output, staged_roll_length};
ghost use Rattle.staged.specs.View.{staged_place};
ghost use Rattle.eif_registers.specs.Registers.{staged_registers};
ghost use Rattle.eif_flat.specs.Flat.{flat_written};
ghost use Rattle.eif_c.specs.Measure.{flat_registers};
ghost use Rattle.eif_c.specs.Staging.{flat_part};

use eif::DataLength;
use staged::StagedPart;

// Where a section's data lies: `in_replacement` is 1 where it is the replacement, whole, and 0 where it is a part of the base. `reserved` is 0.
#[repr(C)]
#[derive(Clone, Copy)]
pub struct EifStagedPart {
    pub number: u8,
    pub in_replacement: u8,
    pub reserved: [u8; 6],
    pub index: u64,
    pub position: u64,
    pub start: u64,
    pub length: DataLength,
}

pub fn flat_part(found: StagedPart) -> EifStagedPart
    ensures { result ≡ flat_part found }
{
    let verdict = found.verdict;
    let length = found.length;
    EifStagedPart {
        number: eif_flat::number_of(verdict),
        in_replacement: found.in_replacement,
        reserved: [0u8; 6],
        index: eif_flat::index_of(verdict),
        position: eif_flat::position_of(verdict),
        start: found.start,
        length,
    }
}

#[unsafe(no_mangle)]
pub extern "C" fn eif_staged_part(
    base: &[u8],
    size: u64,
    replaced: u64,
    shown: u64,
) -> EifStagedPart
    ensures { result ≡ flat_part (staged_place base.now size replaced shown) }
{
    flat_part(staged_view::place(base, size, replaced, shown))
}

#[unsafe(no_mangle)]
pub extern "C" fn eif_staged_roll_write<'a>(
    base: &'a [u8],
    replacement: &'a [u8],
    replaced: u64,
    out: &mut [u8],
) -> eif_flat::EifAnswer
    ensures value { result ≡ flat_written (staged_roll_answer base.now replacement.now replaced (length out.old)) }
    ensures out_after { out.new ≡ staged_roll_output base.now replacement.now replaced out.old }
{
    eif_flat::flat_written(roll_writer::write_staged(base, replacement, replaced, out))
}

#[unsafe(no_mangle)]
pub extern "C" fn eif_staged_roll_length(
    base: &[u8],
    replacement: &[u8],
    replaced: u64,
) -> eif_flat::EifAnswer
    ensures { result ≡ flat_written (staged_roll_length base.now replacement.now replaced) }
{
    eif_flat::flat_written(roll_writer::length_staged(base, replacement, replaced))
}

#[unsafe(no_mangle)]
pub extern "C" fn eif_staged_registers<'a>(
    base: &'a [u8],
    replacement: &'a [u8],
    replaced: u64,
) -> crate::measure::EifRegisters
    ensures { result ≡ flat_registers (staged_registers base.now replacement.now replaced) }
{
    let measured = eif_registers::registers_staged(base, replacement, replaced);
    crate::measure::flat_registers(measured)
}
