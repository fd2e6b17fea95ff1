ghost use Rattle.std.specs.Prelude.{◌≡◌, ◌+◌, ℕ, List, All, length, nat_eq, sum_by};
ghost use Rattle.std.specs.List.{IsDistinct, flat_map};
ghost use Rattle.std.specs.List.Sorted.{IsPermutation, IsStrictlySortedBy};
ghost use Rattle.std.specs.Ordering.{nat_cmp};
ghost use Rattle.inbox.specs.declared.letters.Letter.{Letter as AnyLetter};
ghost use Rattle.inbox.specs.Merging.{are_one, source_cmp, IsBySource, dropped_of, inbox_of, inboxes_of, AreSent};

/// Shows that distinct letters can be sorted by source.
pub fn letters_can_be_ordered()
    ensures { (letters : List AnyLetter) → IsDistinct are_one letters
        → (ordered : List AnyLetter) × IsBySource letters ordered }
{}

/// Shows that letters have only one order by source.
pub fn letters_have_one_order()
    ensures { (letters shuffled ordered other : List AnyLetter) → IsPermutation letters shuffled
        → IsBySource letters ordered → IsBySource shuffled other
        → ordered ≡ other }
{}

/// Shows that the order by source does not depend on how letters are spread over lists, so neither do inboxes. Distinct
/// letters stay distinct.
pub fn letters_keep_their_order_in_any_lists()
    ensures order { (letters shuffled ordered : List AnyLetter) → IsPermutation letters shuffled
        → IsBySource letters ordered → IsBySource shuffled ordered }
    ensures distinct { (letters shuffled : List AnyLetter) → IsPermutation letters shuffled
        → IsDistinct are_one letters → IsDistinct are_one shuffled }
{}

/// Shows that the number of dropped letters does not depend on the order of the letters, nor on that of the ids.
pub fn letters_drop_alike_in_any_order()
    ensures letters { (letters shuffled : List AnyLetter) (ids : List ℕ)
        → IsPermutation letters shuffled
        → dropped_of letters ids ≡ dropped_of shuffled ids }
    ensures ids { (letters : List AnyLetter) (ids shuffled : List ℕ) → IsPermutation ids shuffled
        → dropped_of letters ids ≡ dropped_of letters shuffled }
{}

/// Shows that each letter goes into one inbox or is dropped, where the ids are distinct.
pub fn letters_are_delivered_once_or_drop()
    ensures { (letters ordered : List AnyLetter) (ids : List ℕ) → IsBySource letters ordered
        → IsDistinct nat_eq ids
        → sum_by length (inboxes_of ordered ids) + dropped_of letters ids ≡ length letters }
{}

/// Shows that the number of dropped letters is the sum of those of each source.
pub fn drops_add_up_over_sources()
    ensures { (sources : List ℕ) (sent_by : ℕ → List AnyLetter) (ids : List ℕ)
        → dropped_of (flat_map sent_by sources) ids
        ≡ sum_by (λ source. dropped_of (sent_by source) ids) sources }
{}

/// Shows that sources may send in any order, each its own letters in the order of sending. The letters are distinct. Sorted
/// by source, they are what the sources send by rising id.
pub fn sources_send_in_any_order()
    ensures distinct { (sources spread : List ℕ) (sent_by : ℕ → List AnyLetter) → AreSent sent_by
        → IsStrictlySortedBy nat_cmp sources → IsPermutation sources spread
        → IsDistinct are_one (flat_map sent_by spread) }
    ensures ordered { (sources spread : List ℕ) (sent_by : ℕ → List AnyLetter) → AreSent sent_by
        → IsStrictlySortedBy nat_cmp sources → IsPermutation sources spread
        → IsBySource (flat_map sent_by spread) (flat_map sent_by sources) }

    // The sources may be split into parts, whose letters are sent one part after the other.
    ensures parts { (parts : List (List ℕ)) (sent_by : ℕ → List AnyLetter)
        → flat_map sent_by (flat_map (λ part. part) parts) ≡ flat_map (flat_map sent_by) parts }
{}

/// Shows that an inbox is the concatenation of what each source sent to it. The sources rise, and each one's letters are in
/// the order of sending.
pub fn inboxes_are_concatenated_by_source()
    ensures ordered { (sources : List ℕ) (sent_by : ℕ → List AnyLetter)
        → IsStrictlySortedBy nat_cmp sources
        → ((source : ℕ) → All (λ letter. letter.from ≡ source) (sent_by source))
        → ((source : ℕ) → IsStrictlySortedBy (λ a b. nat_cmp a.seq b.seq) (sent_by source))
        → IsStrictlySortedBy source_cmp (flat_map sent_by sources) }
    ensures inbox { (sources : List ℕ) (sent_by : ℕ → List AnyLetter) (id : ℕ)
        → inbox_of (flat_map sent_by sources) id
        ≡ flat_map (λ source. inbox_of (sent_by source) id) sources }
{}
