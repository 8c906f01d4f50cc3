// One number read: a plan number, up to four groups; a number of a bench job, up to five.
#![tactic(auto)]

mod word;

ghost use Rattle.std.specs.Prelude.{ℕ, ◌+◌, ◌≤◌, ◌<◌, ◌≡◌, List, length};
ghost use Rattle.leb128.specs.Number.{Bytes, plan_groups, read, job_groups};
ghost use Rattle.leb128_reader.specs.Word.{word_at};

use leb128::Malformed;

// The plan number at an offset: its end is found in the word there, of four bytes where they remain.
// Bytes and an offset are the C interface's, and refusals say the offset: so here and in all that reads a plan.
pub fn read_plan_number(bytes: &[u8], at: usize) -> Result<(u32, usize), Malformed>
    ensures { result ≡ read plan_groups bytes.now at }
{
    let word = if at < word::full(bytes) {
        word::four_at(bytes, at)
    } else {
        if bytes.len() <= at {
            return Err(Malformed { at });
        }
        word::left_at(bytes, at)
    };
    number_in(word, at)
}

// The plan number that begins a word, which stands at an offset. A last group of 0 is refused after another:
// it is that of a form which is not the shortest, or the bytes have ended.
fn number_in(word: u32, at: usize) -> Result<(u32, usize), Malformed>
    requires { at + 4 ≤ 18446744073709551615 }
    ensures { (s : List ℕ) → Bytes s → at < length s → word ≡ word_at s at → result ≡ read plan_groups s at }
{
    let first = at + 1;
    if word / 128 % 2 == 0 {
        return Ok((word % 128, first));
    }
    let second = first + 1;
    let two = word % 128 + word / 256 % 128 * 128;
    if word / 32768 % 2 == 0 {
        if two < 128 {
            return Err(Malformed { at });
        }
        return Ok((two, second));
    }
    let third = second + 1;
    let three = two + word / 65536 % 128 * 16384;
    if word / 8388608 % 2 == 0 {
        if three < 16384 {
            return Err(Malformed { at });
        }
        return Ok((three, third));
    }
    let fourth = word / 16777216;
    if fourth == 0 {
        return Err(Malformed { at });
    }
    if 127 < fourth {
        return Err(Malformed { at });
    }
    Ok((three + fourth * 2097152, third + 1))
}

// The number of a bench job at an offset: a group, and up to four after it, as a plan number has them.
pub fn read_job_number(bytes: &[u8], at: usize) -> Result<(u32, usize), Malformed>
    ensures { result ≡ read job_groups bytes.now at }
{
    if bytes.len() <= at {
        return Err(Malformed { at });
    }
    let a = bytes[at];
    if a < 128 {
        return Ok((u32::from(a), at + 1));
    }
    let Ok((rest, next)) = read_plan_number(bytes, at + 1) else {
        return Err(Malformed { at });
    };
    if rest == 0 {
        return Err(Malformed { at });
    }
    let value = u64::from(a) - 128 + 128 * u64::from(rest);
    if value < 4294967296 {
        Ok((value as u32, next))
    } else {
        Err(Malformed { at })
    }
}
