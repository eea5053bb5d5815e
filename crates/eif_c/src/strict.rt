// The stricter reading of an image, and the check of JSON that it makes, for programs in C and Rust (FORMAT.md, Stricter reading).
ghost use Rattle.std.specs.Prelude.{◌≡◌};
ghost use Rattle.json_grammar.specs.Verdict.{IsVerdict, JsonVerdict};
ghost use Rattle.json_machine.specs.Machine.{json_verdict};
ghost use Rattle.strict_reader.specs.Strict.{read_strict};
ghost use Rattle.eif_flat.specs.Flat.{flat_reading};
ghost use Rattle.eif_c.specs.Strict.{text_flag, fault_place, flat_json};

use json_grammar::JsonFault;

// `is_text` is 1 where the bytes are one JSON text, and `place` then 0; else it is 0 and `place` that of the fault.
#[repr(C)]
#[derive(Clone, Copy)]
pub struct EifJson {
    pub is_text: u8,
    pub reserved: [u8; 7],
    pub place: u64,
}

fn text_flag(verdict: Result<(), JsonFault>) -> u8
    ensures { result ≡ text_flag verdict }
{
    match verdict {
        Ok(()) => 1,
        Err(_) => 0,
    }
}

fn fault_place(verdict: Result<(), JsonFault>) -> u64
    ensures { result ≡ fault_place verdict }
{
    match verdict {
        Ok(()) => 0,
        Err(fault) => fault.place as u64,
    }
}

fn flat_json(verdict: Result<(), JsonFault>) -> EifJson
    ensures { result ≡ flat_json verdict }
{
    EifJson {
        is_text: text_flag(verdict),
        reserved: [0u8; 7],
        place: fault_place(verdict),
    }
}

#[unsafe(no_mangle)]
pub extern "C" fn eif_read_strict(image: &[u8]) -> eif_flat::EifReading
    ensures { result ≡ flat_reading (read_strict image.now) }
{
    eif_flat::flat_reading(strict_reader::read_strict(image))
}

// What the checker computes, which is the verdict that the grammar says is the right one.
#[unsafe(no_mangle)]
pub extern "C" fn eif_json_check(text: &[u8]) -> EifJson
    ensures value { result ≡ flat_json (json_verdict text.now) }
    ensures right_verdict { (v : JsonVerdict) → IsVerdict text.now v → result ≡ flat_json v }
{
    flat_json(json_check::check(text))
}
