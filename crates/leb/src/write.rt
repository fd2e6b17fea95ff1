ghost use Rattle.std.specs.Prelude.{◌≡◌, ◌*◌, ◌<◌, ◌++◌, OnOk, OnErr};
ghost use Rattle.leb.specs.Spelling.{FitsBits, shortest_signed, u32_spelling, s32_spelling, s64_spelling};

use std::alloc::AllocError;

/// Appends the shortest spelling of the number, of at most 5 bytes (Core 1.0, 5.2.2). An `Err` means
/// out of memory, and leaves `out` unchanged.
pub fn write_u32(out: &mut Vec<u8>, number: u32) -> Result<(), AllocError>
    ensures ok { OnOk result (out.new.items ≡ out.old.items ++ u32_spelling number) }
    ensures err { OnErr result (out.new.items ≡ out.old.items) }
{
    out.reserve(5)?;
    let mut rest = number;
    while rest >= 128 {
        out.push((rest % 128) as u8 + 128).unwrap();
        rest /= 128;
    }
    out.push(rest as u8).unwrap();
    Ok(())
}

/// Appends the shortest spelling of the signed number, of at most 5 bytes (Core 1.0, 5.2.2). An
/// `Err` means out of memory, and leaves `out` unchanged.
pub fn write_s32(out: &mut Vec<u8>, number: i32) -> Result<(), AllocError>
    ensures ok { OnOk result (out.new.items ≡ out.old.items ++ s32_spelling number) }
    ensures err { OnErr result (out.new.items ≡ out.old.items) }
{
    write_signed(out, 5, i64::from(number))
}

/// Appends the shortest spelling of the signed number, of at most 10 bytes (Core 1.0, 5.2.2). An
/// `Err` means out of memory, and leaves `out` unchanged.
pub fn write_s64(out: &mut Vec<u8>, number: i64) -> Result<(), AllocError>
    ensures ok { OnOk result (out.new.items ≡ out.old.items ++ s64_spelling number) }
    ensures err { OnErr result (out.new.items ≡ out.old.items) }
{
    write_signed(out, 10, number)
}

// Appends the shortest spelling of a signed number that fits in `most` bytes.
fn write_signed(out: &mut Vec<u8>, most: usize, number: i64) -> Result<(), AllocError>
    requires some { 0 < most }
    requires fits { FitsBits (7 * most) number }
    ensures ok { OnOk result (out.new.items ≡ out.old.items ++ shortest_signed most number) }
    ensures err { OnErr result (out.new.items ≡ out.old.items) }
{
    out.reserve(most)?;
    let mut rest = number;
    while !(-64..64).contains(&rest) {
        out.push(rest.rem_euclid(128) as u8 + 128).unwrap();
        rest = rest.div_euclid(128);
    }
    out.push(rest.rem_euclid(128) as u8).unwrap();
    Ok(())
}
