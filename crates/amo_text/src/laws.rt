//! Laws of the text: a number, some bytes, and a line of fields have one spelling each, and what a fault leaves
//! of some bytes is a beginning of them.
//!
//! These functions do nothing. Their contracts are facts about the definitions, which callers may use.
ghost use Rattle.std.specs.Prelude.{◌≡◌, ◌≢◌, ℕ, ◌<◌, ◌^◌, List, ◌∷◌, ◌++◌, Some, false};
ghost use Rattle.std.specs.Fmt.{decimal};
ghost use Rattle.std.specs.Int.{IsInRange};
ghost use Rattle.std.specs.List.{AllByRecursion, flat_map};
ghost use Rattle.hex.specs.Hex.{IsBytes};
ghost use Rattle.amo_text.specs.Hexadecimal.{hex, is_hex_digit};
ghost use Rattle.amo_text.specs.Sink.{AppendsFront};
ghost use Rattle.amo_text.specs.Line.{Lacks, IsField, IsLine, text_of, line_of};

/// Two numbers have two decimals.
pub fn decimal_is_injective()
    ensures { (m n : ℕ) → m < 2 ^ 64 → n < 2 ^ 64 → decimal m ≡ decimal n → m ≡ n }
{}

/// Two lists of bytes have two spellings.
pub fn hex_is_injective()
    ensures { (m n : List ℕ) → IsBytes m → IsBytes n → hex m ≡ hex n → m ≡ n }
{}

/// A decimal is made of digits, and HEX of its digits and the dash: each is a field.
pub fn spellings_are_fields()
    ensures decimal { (n : ℕ) → n < 2 ^ 64 → IsField (decimal n) }
    ensures hex { (m : List ℕ) → IsBytes m → IsField (hex m) }
    ensures decimal_digits { (byte n : ℕ) → n < 2 ^ 64 → ¬ (IsInRange 48 57 byte) → Lacks byte (decimal n) }
    ensures hex_digits { (byte : ℕ) (m : List ℕ) → IsBytes m → is_hex_digit byte ≡ false → byte ≢ 45 → Lacks byte (hex m) }
{}

/// A text has one cut at the first place of a byte, and none where the byte does not stand.
pub fn first_cut_is_unique()
    ensures one { (byte : ℕ) (a x b y : List ℕ) → Lacks byte a → Lacks byte b
        → a ++ byte ∷ x ≡ b ++ byte ∷ y → (a ≡ b) × (x ≡ y) }
    ensures none { (byte : ℕ) (xs b y : List ℕ) → Lacks byte xs → xs ≢ b ++ byte ∷ y }
{}

/// A line has one list of fields and one end, and a text is the lines of one list at most.
pub fn line_is_injective()
    ensures one { (us vs : List (List ℕ)) → IsLine us → IsLine vs → line_of us ≡ line_of vs → us ≡ vs }
    ensures first { (us vs : List (List ℕ)) (x y : List ℕ) → IsLine us → IsLine vs
        → line_of us ++ x ≡ line_of vs ++ y → (us ≡ vs) × (x ≡ y) }
    ensures all { (ks ls : List (List (List ℕ))) → AllByRecursion IsLine ks → AllByRecursion IsLine ls
        → flat_map line_of ks ≡ flat_map line_of ls → ks ≡ ls }
    ensures end { (us : List (List ℕ)) → IsLine us → Lacks 10 (text_of us) }
{}

/// What a sink has more after a beginning of some bytes was appended is a beginning of those bytes.
pub fn appended_front_is_a_front()
    ensures { (old new bytes : List ℕ) → AppendsFront (Some old) (Some new) bytes
        → (front rest : List ℕ) × (new ≡ old ++ front) × (bytes ≡ front ++ rest) }
{}
