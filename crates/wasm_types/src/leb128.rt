//! Integers in groups of seven bits, LEB128 (Core 1.0, section 5.2.2).

ghost use Rattle.std.specs.Prelude.{◌≡◌, ℕ, ◌+◌, ◌*◌, ◌%◌, ◌^◌, ◌<◌, ◌≤◌, ◌++◌, List, length, take, Some, None, MatchOption, IfSome, IfOk, OnOk, OnErr};
ghost use Rattle.std.specs.Int.{cast_unsigned, w32, w64};
ghost use Rattle.wasm_types.specs.Leb128.{IsU32, IsS32, IsS64};
ghost use Rattle.wasm_types.specs.Leb128Texts.{u32_at, s32_at, s64_at, u32_text, s32_text, s64_text, IsRead, IsReadAs, raw_at, unsigned_at, signed_at, unsigned_text, signed_text};

use std::alloc::{AllocError, Global};

// What the groups make, the weight of a next group, and the bytes after them.
fn raw_at(bytes: &[u8], most: u8) -> Option<(u128, u128, &[u8])>
    requires { most ≤ 10 }
    ensures found { MatchOption result (raw_at most bytes.now ≡ None)
        (λ x. raw_at most bytes.now ≡ Some (x.0, x.1, x.2.now)) }
    ensures small { IfSome result (λ x. x.0 < 128 ^ most) }
    ensures weight { IfSome result (λ x. x.1 ≤ 128 ^ most) }
    ensures shorter { IfSome result (λ x. length x.2.now < length bytes.now) }
{
    if most == 0 {
        return None;
    }
    match bytes {
        [] => None,
        [b, rest @ ..] => {
            if *b < 128 {
                return Some((*b as u128, 128, rest));
            }
            let (high, weight, after) = raw_at(rest, most - 1)?;
            Some(((*b - 128) as u128 + 128 * high, 128 * weight, after))
        }
    }
}

fn unsigned_at(bytes: &[u8], most: u8, limit: u128) -> Option<(u128, &[u8])>
    requires { most ≤ 10 }
    ensures found { MatchOption result (unsigned_at most limit bytes.now ≡ None)
        (λ x. unsigned_at most limit bytes.now ≡ Some (x.0, x.1.now)) }
    ensures small { IfSome result (λ x. x.0 < limit) }
    ensures shorter { IfSome result (λ x. length x.1.now < length bytes.now) }
{
    let (n, _, rest) = raw_at(bytes, most)?;
    if n < limit { Some((n, rest)) } else { None }
}

#[tactic(auto, using(crate::proofs::Groups::pow_top))]
fn signed_at(bytes: &[u8], most: u8, half: u128) -> Option<(u128, &[u8])>
    requires most { most ≤ 10 }
    requires half { half ≤ 2 ^ 63 }
    ensures found { MatchOption result (signed_at most half bytes.now ≡ None)
        (λ x. signed_at most half bytes.now ≡ Some (x.0, x.1.now)) }
    ensures small { IfSome result (λ x. x.0 < 2 * half) }
    ensures shorter { IfSome result (λ x. length x.1.now < length bytes.now) }
{
    let (n, weight, rest) = raw_at(bytes, most)?;
    if 2 * n < weight {
        if n < half { Some((n, rest)) } else { None }
    } else if weight + half <= n + 2 * half && n < weight {
        Some((n + 2 * half - weight, rest))
    } else {
        None
    }
}

/// The unsigned integer of 32 bits at the front, and the bytes after it; `None` where there is none.
#[tactic(auto, unfolding(crate::specs::Leb128Texts::u32_at))]
pub fn take_u32(bytes: &[u8]) -> Option<(u32, &[u8])>
    ensures found { MatchOption result (u32_at bytes.now ≡ None)
        (λ x. u32_at bytes.now ≡ Some (x.0, x.1.now)) }
    ensures shorter { IfSome result (λ x. length x.1.now < length bytes.now) }
{
    let (n, rest) = unsigned_at(bytes, 5, 4294967296)?;
    Some((n as u32, rest))
}

/// The signed integer of 32 bits at the front as its bit pattern, and the bytes after it; `None` where there is none.
#[tactic(auto, unfolding(crate::specs::Leb128Texts::s32_at))]
pub fn take_s32(bytes: &[u8]) -> Option<(u32, &[u8])>
    ensures found { MatchOption result (s32_at bytes.now ≡ None)
        (λ x. s32_at bytes.now ≡ Some (x.0, x.1.now)) }
    ensures shorter { IfSome result (λ x. length x.1.now < length bytes.now) }
{
    let (n, rest) = signed_at(bytes, 5, 2147483648)?;
    Some((n as u32, rest))
}

/// The signed integer of 64 bits at the front as its bit pattern, and the bytes after it; `None` where there is none.
#[tactic(auto, unfolding(crate::specs::Leb128Texts::s64_at))]
pub fn take_s64(bytes: &[u8]) -> Option<(u64, &[u8])>
    ensures found { MatchOption result (s64_at bytes.now ≡ None)
        (λ x. s64_at bytes.now ≡ Some (x.0, x.1.now)) }
    ensures shorter { IfSome result (λ x. length x.1.now < length bytes.now) }
{
    let (n, rest) = signed_at(bytes, 10, 9223372036854775808)?;
    Some((n as u64, rest))
}

/// The unsigned integer at the front, of at most 5 bytes, and how many bytes it takes.
pub fn read_u32(bytes: &[u8]) -> Option<(u32, usize)>
    ensures len { IfSome result (λ x. x.1 ≤ length bytes.now) }
    ensures found { IfSome result (λ x. IsU32 (take x.1 bytes.now) x.0) }
    ensures again { (n : ℕ) (text rest : List ℕ) → IsU32 text n → bytes.now ≡ text ++ rest
        → IsRead result n (length text) }
{
    let (n, rest) = take_u32(bytes)?;
    Some((n, bytes.len() - rest.len()))
}

/// The signed integer at the front, of at most 5 bytes, and how many bytes it takes.
pub fn read_s32(bytes: &[u8]) -> Option<(i32, usize)>
    ensures len { IfSome result (λ x. x.1 ≤ length bytes.now) }
    ensures found { IfSome result (λ x. IsS32 (take x.1 bytes.now) (cast_unsigned w32 x.0)) }
    ensures again { (n : ℕ) (text rest : List ℕ) → IsS32 text n → bytes.now ≡ text ++ rest
        → IsReadAs w32 result n (length text) }
{
    let (n, rest) = take_s32(bytes)?;
    Some((n.cast_signed(), bytes.len() - rest.len()))
}

/// The signed integer at the front, of at most 10 bytes, and how many bytes it takes.
pub fn read_s64(bytes: &[u8]) -> Option<(i64, usize)>
    ensures len { IfSome result (λ x. x.1 ≤ length bytes.now) }
    ensures found { IfSome result (λ x. IsS64 (take x.1 bytes.now) (cast_unsigned w64 x.0)) }
    ensures again { (n : ℕ) (text rest : List ℕ) → IsS64 text n → bytes.now ≡ text ++ rest
        → IsReadAs w64 result n (length text) }
{
    let (n, rest) = take_s64(bytes)?;
    Some((n.cast_signed(), bytes.len() - rest.len()))
}

fn push_unsigned(out: &mut Vec<u8>, most: u8, n: u64) -> Result<(), AllocError>
    ensures done { OnOk result (out.new.items ≡ out.old.items ++ unsigned_text most n) }
    ensures undone { OnErr result (out.new.items ≡ out.old.items) }
{
    out.reserve(most as usize)?;
    let mut left = most;
    let mut rest = n;
    while left > 0 {
        if rest < 128 {
            out.push_reserved(rest as u8);
            return Ok(());
        }
        out.push_reserved((rest % 128) as u8 + 128);
        rest /= 128;
        left -= 1;
    }
    Ok(())
}

fn push_signed(out: &mut Vec<u8>, most: u8, half: u64, n: u64) -> Result<(), AllocError>
    requires half { half ≤ 2 ^ 63 }
    requires small { n < 2 * half }
    requires whole { half % 64 ≡ 0 }
    ensures done { OnOk result (out.new.items ≡ out.old.items ++ signed_text most half n) }
    ensures undone { OnErr result (out.new.items ≡ out.old.items) }
{
    out.reserve(most as usize)?;
    let mut left = most;
    let mut rest = n;
    while left > 0 {
        if rest < 64 || half - 64 + half <= rest {
            out.push_reserved((rest % 128) as u8);
            return Ok(());
        }
        out.push_reserved((rest % 128) as u8 + 128);
        rest = if rest < half {
            rest / 128
        } else {
            rest / 128 + (half - half / 64 + half)
        };
        left -= 1;
    }
    Ok(())
}

/// Appends the shortest form of an unsigned integer, or leaves the vector as it was. Mostly it is one byte, and there is room for it.
#[tactic(auto, unfolding(crate::specs::Leb128Texts::u32_text))]
#[inline(always)]
pub fn push_u32(out: &mut Vec<u8>, n: u32) -> Result<(), AllocError>
    ensures done { OnOk result (out.new.items ≡ out.old.items ++ u32_text n) }
    ensures undone { OnErr result (out.new.items ≡ out.old.items) }
{
    if n < 128 && out.len() < out.capacity() {
        out.push_reserved(n as u8);
        return Ok(());
    }
    push_unsigned(out, 5, n as u64)
}

/// Appends the shortest form of the signed integer of 32 bits with this bit pattern, or leaves the vector as it was.
#[tactic(auto, unfolding(crate::specs::Leb128Texts::s32_text))]
#[inline(always)]
pub fn push_s32(out: &mut Vec<u8>, n: u32) -> Result<(), AllocError>
    ensures done { OnOk result (out.new.items ≡ out.old.items ++ s32_text n) }
    ensures undone { OnErr result (out.new.items ≡ out.old.items) }
{
    if (n < 64 || 4294967232 <= n) && out.len() < out.capacity() {
        out.push_reserved((n % 128) as u8);
        return Ok(());
    }
    push_signed(out, 5, 2147483648, n as u64)
}

/// Appends the shortest form of the signed integer of 64 bits with this bit pattern, or leaves the vector as it was.
#[tactic(auto, unfolding(crate::specs::Leb128Texts::s64_text))]
#[inline(always)]
pub fn push_s64(out: &mut Vec<u8>, n: u64) -> Result<(), AllocError>
    ensures done { OnOk result (out.new.items ≡ out.old.items ++ s64_text n) }
    ensures undone { OnErr result (out.new.items ≡ out.old.items) }
{
    if (n < 64 || 18446744073709551552 <= n) && out.len() < out.capacity() {
        out.push_reserved((n % 128) as u8);
        return Ok(());
    }
    push_signed(out, 10, 9223372036854775808, n)
}

/// The shortest form of an unsigned integer.
pub fn write_u32(alloc: Global, n: u32) -> Result<Vec<u8>, AllocError>
    ensures spelled { IfOk result (λ v. IsU32 v.items n) }
    ensures minimal { IfOk result
        (λ v. (other : List ℕ) → IsU32 other n → length v.items ≤ length other) }
{
    let mut out = Vec::new(alloc);
    push_u32(&mut out, n)?;
    Ok(out)
}

/// The shortest form of a signed integer.
pub fn write_s32(alloc: Global, n: i32) -> Result<Vec<u8>, AllocError>
    ensures spelled { IfOk result (λ v. IsS32 v.items (cast_unsigned w32 n)) }
    ensures minimal { IfOk result (λ v. (other : List ℕ) → IsS32 other (cast_unsigned w32 n)
        → length v.items ≤ length other) }
{
    let mut out = Vec::new(alloc);
    push_s32(&mut out, n.cast_unsigned())?;
    Ok(out)
}

/// The shortest form of a signed integer.
pub fn write_s64(alloc: Global, n: i64) -> Result<Vec<u8>, AllocError>
    ensures spelled { IfOk result (λ v. IsS64 v.items (cast_unsigned w64 n)) }
    ensures minimal { IfOk result (λ v. (other : List ℕ) → IsS64 other (cast_unsigned w64 n)
        → length v.items ≤ length other) }
{
    let mut out = Vec::new(alloc);
    push_s64(&mut out, n.cast_unsigned())?;
    Ok(out)
}
