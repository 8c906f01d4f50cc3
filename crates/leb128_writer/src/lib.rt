// One plan number written, and how many bytes it takes.
#![tactic(auto)]

ghost use Rattle.std.specs.Prelude.{◌+◌, ◌^◌, ◌≤◌, ◌<◌, ◌≡◌, length};
ghost use Rattle.std.proofs.lemmas.List.Edits.{sets};
ghost use Rattle.leb128.specs.Number.{plan_groups, encode, write_answer, written};

use leb128::WriteError;

// How many bytes a plan number takes.
pub fn plan_number_len(value: u32) -> usize
    ensures { result ≡ length (encode plan_groups value) }
{
    if value < 128 {
        1
    } else if value < 16384 {
        2
    } else if value < 2097152 {
        3
    } else {
        4
    }
}

// Writes a plan number that has a form and room at an offset, and gives the offset past it.
pub fn lay_plan_number(out: &mut [u8], at: usize, value: u32) -> usize
    requires { (value < 128 ^ plan_groups) × (at + length (encode plan_groups value) ≤ length out.old) }
    ensures value { result ≡ at + length (encode plan_groups value) }
    ensures out_after { out.new ≡ sets out.old at (encode plan_groups value) }
{
    if value < 128 {
        out[at] = value as u8;
        return at + 1;
    }
    out[at] = (value % 128 + 128) as u8;
    if value < 16384 {
        out[at + 1] = (value / 128) as u8;
        return at + 2;
    }
    out[at + 1] = (value / 128 % 128 + 128) as u8;
    if value < 2097152 {
        out[at + 2] = (value / 16384) as u8;
        return at + 3;
    }
    out[at + 2] = (value / 16384 % 128 + 128) as u8;
    out[at + 3] = (value / 2097152) as u8;
    at + 4
}

// Writes a plan number at an offset, where it fits. Bytes and an offset are the C interface's.
pub fn write_plan_number(out: &mut [u8], at: usize, value: u32) -> Result<usize, WriteError>
    ensures value { result ≡ write_answer plan_groups out.old at value }
    ensures out_after { out.new ≡ written plan_groups out.old at value }
{
    if 268435456 <= value {
        return Err(WriteError::TooLarge);
    }
    if out.len().saturating_sub(at) < plan_number_len(value) {
        return Err(WriteError::NoRoom);
    }
    Ok(lay_plan_number(out, at, value))
}
