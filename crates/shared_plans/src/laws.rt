ghost use Rattle.std.specs.Prelude.{◌≡◌, ◌<◌, ℕ, ◌+◌, ◌*◌, ◌^◌, List, ◌++◌, length, map};
ghost use Rattle.proto_core.specs.Rings.{add_ring, xor_ring};
ghost use Rattle.proto_core.specs.declared.party.Number.{Number};
ghost use Rattle.protocol_model.specs.Runs.{Tapes};
ghost use Rattle.gates.specs.declared.ring_kind.RingKind.TheVariants.{Arithmetic};
ghost use Rattle.gates.specs.Clear.{each_two};
ghost use Rattle.gates.specs.declared.gate.Gate.{Gate as GateValue};
ghost use Rattle.gates.specs.Counts.{Miner, size_of};
ghost use Rattle.gates.specs.WordTests.{zero_test, less_test};
ghost use Rattle.plans.specs.Equality.{eq_plan};
ghost use Rattle.plans.specs.EqualityLaw.{words_taken as equality_words};
ghost use Rattle.plans.specs.BitExtract.{bits_plan};
ghost use Rattle.plans.specs.BitExtractLaw.{words_taken as bits_words};
ghost use Rattle.plans.specs.Compare.{less_plan};
ghost use Rattle.plans.specs.CompareLaw.{words_taken as comparison_words};
ghost use Rattle.plans.specs.Signed.{signed_less_plan};
ghost use Rattle.signed_words.specs.Signed.{signed_less};
ghost use Rattle.oblivious_index.specs.Lookup.{looked};
ghost use Rattle.oblivious_index.specs.LookupLaw.{words_taken as lookup_words};
ghost use Rattle.shared_gates.specs.Shares.{AreShares, Kind, Shared, kind_at};
ghost use Rattle.shared_gates.specs.Kinds.{AllKinded};
ghost use Rattle.shared_gates.specs.Model.{AllSizesSuit, miner_of};
ghost use Rattle.shared_plans.specs.GateRuns.{GateRun, IsWellFormed, value_count, then_gates, shares_of, words_drawn, IsNumber, Reach};
ghost use Rattle.shared_plans.specs.Outcomes.{Follows, Outcome};
ghost use Rattle.shared_plans.specs.Plans.{zero_test_kinds, bits_kinds, comparison_kinds, then_zero_test, then_equality, then_bits, then_comparison};
ghost use Rattle.shared_plans.specs.Plans.{signed_comparison_kinds, then_signed_comparison, then_lookup, equal_test};

/// Law: gates after any well-formed run whose values they suit, and that open none. The longer run is well formed and draws as
/// many words more as they take. On any tapes that are long enough the three miners come to its end with shares of values that
/// fit its gates; they keep the shares that they had, and no word more is opened.
pub fn gates_behind_runs()
    ensures words { (r : GateRun) (gates : List GateValue) (kinds : List Kind) (words : Miner → ℕ) → IsWellFormed r →
        Follows r gates kinds words → (i : Number) → words_drawn (then_gates r gates kinds) i ≡ words_drawn r i + words (miner_of i) }
    ensures outcome { (r : GateRun) (gates : List GateValue) (kinds : List Kind) (words : Miner → ℕ) (tapes : Tapes) →
        IsWellFormed r → Follows r gates kinds words → Reach r words tapes → Outcome r (then_gates r gates kinds) tapes }
{}

/// Law: after any values the plan of equality, which tests for zero, takes a number shared by sums and makes values shared by
/// xor; its gates suit the sizes of the values before them.
pub fn zero_test_suits()
    ensures kinds { (dealt kinds : List Kind) (first word : ℕ) → length kinds ≡ first →
        kind_at kinds word ≡ Shared Arithmetic → AllKinded dealt (kinds ++ zero_test_kinds) first (eq_plan first word) }
    ensures sizes { (dealt sizes : List ℕ) (first word : ℕ) → length sizes ≡ first → word < first →
        AllSizesSuit dealt sizes (eq_plan first word) }
{}

/// Law: likewise the plan of bit extraction for as many elements as its operand has.
pub fn bits_suit()
    ensures kinds { (dealt kinds : List Kind) (first word n : ℕ) → length kinds ≡ first →
        kind_at kinds word ≡ Shared Arithmetic → AllKinded dealt (kinds ++ bits_kinds) first (bits_plan first word n) }
    ensures sizes { (dealt sizes : List ℕ) (first word n : ℕ) → length sizes ≡ first → word < first →
        size_of sizes word ≡ n → AllSizesSuit dealt sizes (bits_plan first word n) }
{}

/// Law: likewise the plan of comparison for as many elements as each of its two operands has.
pub fn comparison_suits()
    ensures kinds { (dealt kinds : List Kind) (first u v n : ℕ) → length kinds ≡ first → kind_at kinds u ≡ Shared Arithmetic →
        kind_at kinds v ≡ Shared Arithmetic → AllKinded dealt (kinds ++ comparison_kinds) first (less_plan first u v n) }
    ensures sizes { (dealt sizes : List ℕ) (first u v n : ℕ) → length sizes ≡ first → u < first → v < first →
        size_of sizes u ≡ n → size_of sizes v ≡ n → AllSizesSuit dealt sizes (less_plan first u v n) }
{}

/// Law: the plan of equality, which tests for zero, after any well-formed run, over a value of `n` numbers that is shared by
/// sums. On any tapes that are long enough the three miners come to the end, and no word more is opened. By xor their shares of
/// the last value add up to 1 exactly where the number is 0 that their shares of the operand add up to, else 0.
pub fn zero_test_on_shares()
    ensures words { (r : GateRun) (n word : ℕ) → IsWellFormed r → IsNumber r n word → (i : Number) →
        words_drawn (then_zero_test r word) i ≡ words_drawn r i + equality_words (miner_of i) n }
    ensures outcome { (r : GateRun) (n word : ℕ) (tapes : Tapes) → IsWellFormed r → IsNumber r n word →
        Reach r (λ miner. equality_words miner n) tapes → Outcome r (then_zero_test r word) tapes }
    ensures result { (r : GateRun) (n word : ℕ) (tapes : Tapes) → IsWellFormed r → IsNumber r n word →
        Reach r (λ miner. equality_words miner n) tapes → (us : List ℕ) → AreShares add_ring us (shares_of r tapes word) →
        AreShares xor_ring (map zero_test us) (shares_of (then_zero_test r word) tapes (value_count r + 16)) }
{}

/// Law: likewise over the difference of two values of `n` numbers; by xor the shares of the last value add up to 1 exactly where
/// the two numbers are equal, else 0.
pub fn equality_on_shares()
    ensures words { (r : GateRun) (n u v : ℕ) → IsWellFormed r → IsNumber r n u → IsNumber r n v → (i : Number) →
        words_drawn (then_equality r u v) i ≡ words_drawn r i + equality_words (miner_of i) n }
    ensures outcome { (r : GateRun) (n u v : ℕ) (tapes : Tapes) → IsWellFormed r → IsNumber r n u → IsNumber r n v →
        Reach r (λ miner. equality_words miner n) tapes → Outcome r (then_equality r u v) tapes }
    ensures result { (r : GateRun) (n u v : ℕ) (tapes : Tapes) → IsWellFormed r → IsNumber r n u → IsNumber r n v →
        Reach r (λ miner. equality_words miner n) tapes → (us vs : List ℕ) → AreShares add_ring us (shares_of r tapes u) →
        AreShares add_ring vs (shares_of r tapes v) →
        AreShares xor_ring (each_two equal_test us vs) (shares_of (then_equality r u v) tapes (value_count r + 17)) }
{}

/// Law: likewise the plan of bit extraction; by xor the shares of the last value add up to the very words that the operand's
/// shares added up to.
pub fn bits_on_shares()
    ensures words { (r : GateRun) (n word : ℕ) → IsWellFormed r → IsNumber r n word → (i : Number) →
        words_drawn (then_bits r n word) i ≡ words_drawn r i + bits_words (miner_of i) n }
    ensures outcome { (r : GateRun) (n word : ℕ) (tapes : Tapes) → IsWellFormed r → IsNumber r n word →
        Reach r (λ miner. bits_words miner n) tapes → Outcome r (then_bits r n word) tapes }
    ensures result { (r : GateRun) (n word : ℕ) (tapes : Tapes) → IsWellFormed r → IsNumber r n word →
        Reach r (λ miner. bits_words miner n) tapes → (us : List ℕ) → AreShares add_ring us (shares_of r tapes word) →
        AreShares xor_ring us (shares_of (then_bits r n word) tapes (value_count r + 53)) }
{}

/// Law: likewise the plan of comparison over two values of `n` numbers; by xor the shares of the last value add up to 1 exactly
/// where the first number is less than the second, as numbers below 2^64, else 0.
pub fn comparison_on_shares()
    ensures words { (r : GateRun) (n u v : ℕ) → IsWellFormed r → IsNumber r n u → IsNumber r n v → (i : Number) →
        words_drawn (then_comparison r n u v) i ≡ words_drawn r i + comparison_words (miner_of i) n }
    ensures outcome { (r : GateRun) (n u v : ℕ) (tapes : Tapes) → IsWellFormed r → IsNumber r n u → IsNumber r n v →
        Reach r (λ miner. comparison_words miner n) tapes → Outcome r (then_comparison r n u v) tapes }
    ensures result { (r : GateRun) (n u v : ℕ) (tapes : Tapes) → IsWellFormed r → IsNumber r n u → IsNumber r n v →
        Reach r (λ miner. comparison_words miner n) tapes → (us vs : List ℕ) → AreShares add_ring us (shares_of r tapes u) →
        AreShares add_ring vs (shares_of r tapes v) →
        AreShares xor_ring (each_two less_test us vs) (shares_of (then_comparison r n u v) tapes (value_count r + 109)) }
{}

/// Law: likewise the plan that compares numbers with a sign takes two numbers shared by sums, and makes values shared by xor at last; its
/// gates suit the sizes of the values before them.
pub fn signed_comparison_suits()
    ensures kinds { (dealt kinds : List Kind) (first u v n : ℕ) → length kinds ≡ first → kind_at kinds u ≡ Shared Arithmetic →
        kind_at kinds v ≡ Shared Arithmetic → AllKinded dealt (kinds ++ signed_comparison_kinds) first (signed_less_plan first u v n) }
    ensures sizes { (dealt sizes : List ℕ) (first u v n : ℕ) → length sizes ≡ first → u < first → v < first →
        size_of sizes u ≡ n → size_of sizes v ≡ n → AllSizesSuit dealt sizes (signed_less_plan first u v n) }
{}

/// Law: likewise the plan that compares numbers with a sign, over two values of `n` numbers; by xor the shares of the last value add up to 1
/// exactly where the first number is less than the second, as numbers from -2^63 to 2^63 - 1, else 0.
pub fn signed_comparison_on_shares()
    ensures words { (r : GateRun) (n u v : ℕ) → IsWellFormed r → IsNumber r n u → IsNumber r n v → (i : Number) →
        words_drawn (then_signed_comparison r n u v) i ≡ words_drawn r i + comparison_words (miner_of i) n }
    ensures outcome { (r : GateRun) (n u v : ℕ) (tapes : Tapes) → IsWellFormed r → IsNumber r n u → IsNumber r n v →
        Reach r (λ miner. comparison_words miner n) tapes → Outcome r (then_signed_comparison r n u v) tapes }
    ensures result { (r : GateRun) (n u v : ℕ) (tapes : Tapes) → IsWellFormed r → IsNumber r n u → IsNumber r n v →
        Reach r (λ miner. comparison_words miner n) tapes → (us vs : List ℕ) → AreShares add_ring us (shares_of r tapes u) →
        AreShares add_ring vs (shares_of r tapes v) →
        AreShares xor_ring (each_two signed_less us vs) (shares_of (then_signed_comparison r n u v) tapes (value_count r + 112)) }
{}

/// Law: likewise the plan of a look-up of `m` places in an array of `n` numbers, fewer than 2^64; the shares of the last value add up, modulo
/// 2^64, to the array's element at each place, and to 0 where the array has none there.
pub fn lookup_on_shares()
    ensures words { (r : GateRun) (n m array index : ℕ) → n < 2 ^ 64 → IsWellFormed r → IsNumber r n array → IsNumber r m index →
        (i : Number) → words_drawn (then_lookup r array index n m) i ≡ words_drawn r i + lookup_words (miner_of i) (n * m) }
    ensures outcome { (r : GateRun) (n m array index : ℕ) (tapes : Tapes) → n < 2 ^ 64 → IsWellFormed r → IsNumber r n array →
        IsNumber r m index → Reach r (λ miner. lookup_words miner (n * m)) tapes → Outcome r (then_lookup r array index n m) tapes }
    ensures result { (r : GateRun) (n m array index : ℕ) (tapes : Tapes) → n < 2 ^ 64 → IsWellFormed r → IsNumber r n array →
        IsNumber r m index → Reach r (λ miner. lookup_words miner (n * m)) tapes → (xs ks : List ℕ) →
        AreShares add_ring xs (shares_of r tapes array) → AreShares add_ring ks (shares_of r tapes index) →
        AreShares add_ring (looked xs ks) (shares_of (then_lookup r array index n m) tapes (value_count r + 23)) }
{}
