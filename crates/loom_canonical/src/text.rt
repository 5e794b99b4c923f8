//! What is written behind a text. An `Err` is want of memory throughout.
ghost use Rattle.std.specs.Prelude.{◌≡◌, ◌++◌, OnOk};
ghost use Rattle.loom_tree.specs.Decimal.{decimal, signed_decimal};

use itoa::Buffer;
use loom_tree::name::{Name, NoMemory};

/// Appends bytes.
pub fn put_bytes(out: &mut Name, bytes: &[u8]) -> Result<(), NoMemory>
    ensures { OnOk result (out.new ≡ out.old ++ bytes.now) }
{
    out.0.extend_from_slice(bytes)?;
    Ok(())
}

/// Appends a number.
#[tactic(auto, using(loom_trace::proofs::Decimal::same_decimal))]
pub fn put_number(out: &mut Name, n: u32) -> Result<(), NoMemory>
    ensures { OnOk result (out.new ≡ out.old ++ decimal n) }
{
    put_bytes(out, Buffer::new().format(n).as_bytes())
}

/// Appends a number with its sign, where it is below 0.
#[tactic(auto, using(loom_trace::proofs::Decimal::same_signed))]
pub(crate) fn put_signed(out: &mut Name, n: i64) -> Result<(), NoMemory>
    ensures { OnOk result (out.new ≡ out.old ++ signed_decimal n) }
{
    put_bytes(out, Buffer::new().format(n).as_bytes())
}
