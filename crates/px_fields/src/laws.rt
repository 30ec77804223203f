//! Laws of values as bytes.

ghost use Rattle.std.specs.Prelude.{◌≡◌, ◌<◌, ◌^◌, ◌++◌, ◌∷◌, ℕ, Bool, List, length, Option};
ghost use Rattle.px_base.specs.declared.kind.Kind.{Kind};
ghost use Rattle.px_fields.specs.Fields.{flag, kind_code, optional_u64, text_bytes, u32_bytes, u64_bytes};
ghost use Rattle.std.specs.Option.{IfSome};

/// A law: bytes that begin with a value of one kind begin with no other value of that kind, and the
/// same stands behind it.
pub fn what_stands_in_front_is_one_value()
    ensures u32 { (n m : ℕ) (rest more : List ℕ) → n < 2 ^ 32 → m < 2 ^ 32
        → u32_bytes n ++ rest ≡ u32_bytes m ++ more → (n ≡ m) × (rest ≡ more) }
    ensures u64 { (n m : ℕ) (rest more : List ℕ) → n < 2 ^ 64 → m < 2 ^ 64
        → u64_bytes n ++ rest ≡ u64_bytes m ++ more → (n ≡ m) × (rest ≡ more) }
    ensures flag { (set other : Bool) (rest more : List ℕ)
        → flag set ∷ rest ≡ flag other ∷ more → (set ≡ other) × (rest ≡ more) }
    ensures optional { (n m : Option ℕ) (rest more : List ℕ)
        → IfSome n (λ k. k < 2 ^ 64) → IfSome m (λ k. k < 2 ^ 64)
        → optional_u64 n ++ rest ≡ optional_u64 m ++ more → (n ≡ m) × (rest ≡ more) }
    ensures kind { (kind other : Kind) (rest more : List ℕ)
        → kind_code kind ∷ rest ≡ kind_code other ∷ more → (kind ≡ other) × (rest ≡ more) }
    ensures text { (text other : List ℕ) (rest more : List ℕ)
        → length text < 2 ^ 16 → length other < 2 ^ 16
        → text_bytes text ++ rest ≡ text_bytes other ++ more → (text ≡ other) × (rest ≡ more) }
{}
