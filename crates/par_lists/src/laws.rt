ghost use Rattle.std.specs.Prelude.{◌≡◌, ℕ, ◌+◌, ◌≤◌, ◌<◌, Bool, false, true, nat_lt, nat_eq, pos, negsuc, List, [], ◌∷◌, ◌++◌, length, take, drop, fold, take_while, slice_get, slice_range, Some, IfSome};
ghost use Rattle.std.specs.List.{AllPass};
ghost use Rattle.std.specs.Ordering.{nat_cmp};
ghost use Rattle.par_lists.specs.Cuts.{drop_while, segment_length, span};
ghost use Rattle.par_lists.specs.Groups.{distinct, groups, keys_in_order, last_pairs};
ghost use Rattle.par_lists.specs.Scans.{scan, zip_with_index};
ghost use Rattle.par_lists.specs.Searches.{index_where, last_index_where};

/// The laws of cuts. It does nothing: the laws are its contract.
pub fn cut_laws<T>()
    // Scala: `span` is `takeWhile` and `dropWhile`
    ensures span { (p : T → Bool) (xs : List T) → span p xs ≡ (take_while p xs, drop_while p xs) }
    ensures whole { (p : T → Bool) (xs : List T) → take_while p xs ++ drop_while p xs ≡ xs }
    ensures passes { (p : T → Bool) (xs : List T) → AllPass p (take_while p xs) }
    ensures stops { (p : T → Bool) (xs : List T) → IfSome (slice_get (drop_while p xs) 0) (λ x. p x ≡ false) }
    // Scala: `slice(a, b)` drops a of what `take(b)` gives
    ensures slice { (xs : List T) (a b : ℕ) → slice_range xs a b ≡ drop a (take b xs) }
    // of 1, 2, 9, 1 three in a row from place 1 on aren't below 5
    ensures segment { segment_length (λ x. nat_lt x 5) 1 (1 ∷ 2 ∷ 9 ∷ 1 ∷ []) ≡ 1 }
{}

/// The laws of searches. It does nothing: the laws are its contract.
pub fn search_laws()
    ensures least { index_where (λ x. nat_lt 4 x) (1 ∷ 5 ∷ 6 ∷ 2 ∷ []) ≡ pos 1 }
    ensures greatest { last_index_where (λ x. nat_lt 4 x) (1 ∷ 5 ∷ 6 ∷ 2 ∷ []) ≡ pos 2 }
    ensures none { index_where (λ x. nat_lt 9 x) (1 ∷ 5 ∷ []) ≡ negsuc 0 }
    ensures none_at_the_end { last_index_where (λ x. nat_lt 9 x) (1 ∷ 5 ∷ []) ≡ negsuc 0 }
{}

/// The laws of scans. It does nothing: the laws are its contract.
pub fn scan_laws<A, B>()
    // a scan has one place more than the list
    ensures places { (f : B → A → B) (a : B) (xs : List A) → length (scan f a xs) ≡ length xs + 1 }
    ensures folds { (f : B → A → B) (a : B) (xs : List A) (k : ℕ) → k ≤ length xs → slice_get (scan f a xs) k ≡ Some (fold f a (take k xs)) }
    ensures sums { scan ◌+◌ 0 (3 ∷ 4 ∷ 5 ∷ []) ≡ 0 ∷ 3 ∷ 7 ∷ 12 ∷ [] }
    ensures index { zip_with_index {X = ℕ} (7 ∷ 8 ∷ []) ≡ (7, 0) ∷ (8, 1) ∷ [] }
{}

/// The law of folds in parts. It does nothing: the law is its contract.
pub fn fold_laws<A, B>()
    // where to add to two joined values is to add to the second, a fold of two lists is their folds joined
    ensures in_parts { (join : B → B → B) (add : B → A → B) → ((a b : B) (x : A) → add (join a b) x ≡ join a (add b x)) → (unit : B) (xs ys : List A) → join (fold add unit xs) unit ≡ fold add unit xs → fold add unit (xs ++ ys) ≡ join (fold add unit xs) (fold add unit ys) }
{}

/// The laws of groups. It does nothing: the laws are its contract.
pub fn group_laws()
    ensures first_of_each { distinct nat_eq (3 ∷ 1 ∷ 3 ∷ 2 ∷ 1 ∷ []) ≡ 3 ∷ 1 ∷ 2 ∷ [] }
    ensures keys { keys_in_order nat_cmp (3 ∷ 1 ∷ 3 ∷ 2 ∷ []) ≡ 1 ∷ 2 ∷ 3 ∷ [] }
    ensures in_order { groups {V = ℕ} nat_cmp ((2, 20) ∷ (1, 10) ∷ (2, 21) ∷ []) ≡ (1, 10 ∷ []) ∷ (2, 20 ∷ 21 ∷ []) ∷ [] }
    // the last pair of a key wins
    ensures last_wins { last_pairs {V = ℕ} nat_cmp ((2, 20) ∷ (1, 10) ∷ (2, 21) ∷ []) ≡ (1, 10) ∷ (2, 21) ∷ [] }
{}
