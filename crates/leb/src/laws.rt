ghost use Rattle.std.specs.Prelude.{◌≡◌, ℕ, ℤ, ◌<◌, ◌≤◌, ◌^◌, ◌++◌, List, length, Ok};
ghost use Rattle.leb.specs.inside.Reading.{unsigned_at, signed_at};
ghost use Rattle.leb.specs.Spelling.{IsUnsigned, IsSigned, FitsBits, u32_spelling, s32_spelling, s64_spelling};

/// States that `u32_spelling` spells the number, that no other spelling is shorter, and that reading
/// it gives the number back, whatever bytes follow (Core 1.0, 5.2.2).
pub fn shortest_unsigned_is_read_back()
    ensures spells { (n : ℕ) → n < 2 ^ 32 → IsUnsigned 32 (u32_spelling n) n }
    ensures shortest { (n : ℕ) (other : List ℕ) → IsUnsigned 32 other n
        → length (u32_spelling n) ≤ length other }
    ensures read_back { (n : ℕ) (rest : List ℕ) → n < 2 ^ 32
        → unsigned_at 32 (u32_spelling n ++ rest) ≡ Ok (n, rest) }
{}

/// States the same of signed numbers, for both widths.
pub fn shortest_signed_is_read_back()
    ensures spells_32 { (z : ℤ) → FitsBits 32 z → IsSigned 32 (s32_spelling z) z }
    ensures shortest_32 { (z : ℤ) (other : List ℕ) → IsSigned 32 other z
        → length (s32_spelling z) ≤ length other }
    ensures read_back_32 { (z : ℤ) (rest : List ℕ) → FitsBits 32 z
        → signed_at 32 (s32_spelling z ++ rest) ≡ Ok (z, rest) }

    ensures spells_64 { (z : ℤ) → FitsBits 64 z → IsSigned 64 (s64_spelling z) z }
    ensures shortest_64 { (z : ℤ) (other : List ℕ) → IsSigned 64 other z
        → length (s64_spelling z) ≤ length other }
    ensures read_back_64 { (z : ℤ) (rest : List ℕ) → FitsBits 64 z
        → signed_at 64 (s64_spelling z ++ rest) ≡ Ok (z, rest) }
{}

/// States that no spelling is a proper prefix of another. So bytes have at most one reading (Core 1.0,
/// 5.2.2).
pub fn no_unsigned_begins_another()
    ensures { (bits : ℕ) (a b x y : List ℕ) (m n : ℕ) → IsUnsigned bits a m
        → IsUnsigned bits b n → a ++ x ≡ b ++ y
        → (a ≡ b) × (m ≡ n) }
{}

/// States the same of signed numbers.
pub fn no_signed_begins_another()
    ensures { (bits : ℕ) (a b x y : List ℕ) (m n : ℤ) → IsSigned bits a m
        → IsSigned bits b n → a ++ x ≡ b ++ y
        → (a ≡ b) × (m ≡ n) }
{}
