//! Laws of the definitions, each on a function that does nothing.

ghost use Rattle.std.specs.Prelude.{◌≡◌, ℕ, ◌≤◌, ◌↔◌, true, Some, None, ℤ, pos, List, [], ◌∷◌, map};
ghost use Rattle.std.specs.Prelude.{All};
ghost use Rattle.rail_types.specs.declared.limits.TheConstants.{
  FAR_TICK,
  MAX_ACCEL_MM_S2,
  MAX_ALLOWANCE_PERCENT,
  MAX_BASE_CLAIMS,
  MAX_BLOCK_LENGTH_M,
  MAX_CELLS,
  MAX_DWELL,
  MAX_HOLD_CLAIMS,
  MAX_HORIZON,
  MAX_ID_BYTES,
  MAX_JOURNAL_BYTES,
  MAX_NETWORK_FILE_BYTES,
  MAX_NUMBER,
  MAX_OBJECTS,
  MAX_OWNER_BYTES,
  MAX_PINNED_RUNS,
  MAX_PLACES,
  MAX_REASON_BYTES,
  MAX_RELEASE,
  MAX_SETTING,
  MAX_SIGHT_M,
  MAX_SPEED_MM_S,
  MAX_STOPS,
  MAX_TICK,
  MAX_TICK_S,
  MAX_TIMETABLE_FILE_BYTES,
  MAX_TRACK_LENGTH_M,
  MAX_TRAIN_LENGTH_M,
  MAX_TRAIN_NAME_BYTES,
  MAX_TRAINS,
  MIN_JOURNAL_BYTES,
};
ghost use Rattle.rail_types.specs.declared.paths.Claim.{Claim as claim_type};
ghost use Rattle.rail_types.specs.declared.paths.Span.{Span as span_type};
ghost use Rattle.rail_types.specs.declared.tracks.Network.{Network as network_type};
ghost use Rattle.rail_types.specs.Occupation.{AreJoined, Clash, Fits, HasTicks, HeldClaim};
ghost use Rattle.rail_types.specs.Occupation.{IsTickOf, Overlap};
ghost use Rattle.rail_types.specs.FirstClash.{
  AreApart,
  clashes,
  first_clash,
  HoldAlike,
  is_before,
  IsBefore,
  IsBeforeOthers,
  IsFirstClash,
};
ghost use Rattle.rail_types.specs.Flaws.{first_flaw};
ghost use Rattle.rail_types.specs.Limits.{
  is_between,
  is_name_byte,
  is_tick,
  IsBlockWithinLimits,
  IsNameByte,
  IsTick,
};
ghost use Rattle.rail_types.specs.Networks.{HasCountsWithinLimits, IsBlockOf};
ghost use Rattle.rail_types.specs.Examples.{
  bare,
  fast_and_out_of_range,
  fast_then_out_of_range,
  line3,
  many_and_no_cell,
  no_cell,
  no_length,
  point_out_of_range,
  release_past_the_end,
  releases_fall,
  serves_out_of_range,
  serves_unsorted,
  too_fast,
  zone_out_of_range,
};
ghost use Rattle.rail_types.specs.declared.tracks.NetFlaw.TheVariants.{
  Range,
  CellOrder,
  EmptyBlock,
  Point,
  Serves,
  Limit,
};

/// Two spans that have ticks overlap exactly where they share one.
pub fn clashes_share_a_tick()
    ensures shared { (a b : span_type) → HasTicks a → HasTicks b → Overlap a b
        → (tick : ℤ) × IsTickOf a tick × IsTickOf b tick }
    ensures sharing { (a b : span_type) (tick : ℤ)
        → IsTickOf a tick → IsTickOf b tick → Overlap a b }
{}

/// Each kind of flaw is told for a network that has it, and none for a sound line; the flaw of an
/// earlier block before that of a later one, of one block the kinds in their order, and that of a
/// block before too many of anything.
pub fn flaws_are_told_apart()
    ensures zone { first_flaw zone_out_of_range ≡ Some Range }
    ensures past { first_flaw release_past_the_end ≡ Some CellOrder }
    ensures fall { first_flaw releases_fall ≡ Some CellOrder }
    ensures cell { first_flaw no_cell ≡ Some EmptyBlock }
    ensures length { first_flaw no_length ≡ Some EmptyBlock }
    ensures point { first_flaw point_out_of_range ≡ Some Point }
    ensures stop { first_flaw serves_out_of_range ≡ Some Serves }
    ensures stops { first_flaw serves_unsorted ≡ Some Serves }
    ensures speed { first_flaw too_fast ≡ Some Limit }
    ensures zones { first_flaw (bare 65537) ≡ Some Limit }
    ensures by_block { first_flaw fast_then_out_of_range ≡ Some Limit }
    ensures by_kind { first_flaw fast_and_out_of_range ≡ Some Range }
    ensures counts_last { first_flaw many_and_no_cell ≡ Some EmptyBlock }
    ensures sound { first_flaw line3 ≡ None }
    ensures few { (zones : ℕ) → zones ≤ 65536 → first_flaw (bare zones) ≡ None }
{}

/// A network has no flaw exactly where its blocks are within their limits and speak of what it has,
/// and it has no more of anything than its limit.
pub fn networks_without_flaws()
    ensures limits { (net : network_type)
        → first_flaw net ≡ None → All IsBlockWithinLimits net.blocks }
    ensures blocks { (net : network_type)
        → first_flaw net ≡ None → All (IsBlockOf net) net.blocks }
    ensures counts { (net : network_type)
        → first_flaw net ≡ None → HasCountsWithinLimits net }
    ensures sound { (net : network_type)
        → All IsBlockWithinLimits net.blocks → All (IsBlockOf net) net.blocks
        → HasCountsWithinLimits net → first_flaw net ≡ None }
{}

/// What the first clash of claims with held ones is. Of held claims that are apart it is the same
/// in whatever order they stand, and the first of joined claims that clashes tells it.
pub fn first_clashes_are_first()
    ensures none { (held : List HeldClaim) (claims : List claim_type)
        → (first_clash held claims ≡ None) ↔ Fits claims (map (λ one. one.0) held) }
    ensures some { (held : List HeldClaim) (claims : List claim_type) (first : HeldClaim)
        → first_clash held claims ≡ Some first → IsFirstClash held claims first }
    ensures alone { (held : List HeldClaim) (claims : List claim_type) (first : HeldClaim)
        → IsFirstClash held claims first → IsBeforeOthers held claims first
        → first_clash held claims ≡ Some first }
    ensures apart { (held : List HeldClaim) (claims : List claim_type) (first : HeldClaim)
        → AreApart held → IsFirstClash held claims first → first_clash held claims ≡ Some first }
    ensures alike { (held others : List HeldClaim) (claims : List claim_type)
        → AreApart held → HoldAlike held others
        → first_clash others claims ≡ first_clash held claims }
    ensures skips { (held : List HeldClaim) (claim : claim_type) (claims : List claim_type)
        → first_clash held (claim ∷ []) ≡ None
        → first_clash held (claim ∷ claims) ≡ first_clash held claims }
    ensures in_order { (held : List HeldClaim) (claim : claim_type) (claims : List claim_type)
        → (first : HeldClaim) → AreApart held → AreJoined (claim ∷ claims)
        → first_clash held (claim ∷ []) ≡ Some first
        → first_clash held (claim ∷ claims) ≡ Some first }
{}

/// What the tests of definitions mean.
pub fn tests_are_facts()
    ensures clash { (a b : claim_type) → (clashes a b ≡ true) ↔ Clash a b }
    ensures before { (a b : claim_type) → (is_before a b ≡ true) ↔ IsBefore a b }
    ensures tick { (tick : ℤ) → (is_tick tick ≡ true) ↔ IsTick tick }
    ensures name_byte { (byte : ℕ) → (is_name_byte byte ≡ true) ↔ IsNameByte byte }
    ensures between { (least most number : ℕ)
        → (is_between least most number ≡ true) ↔ ((least ≤ number) × (number ≤ most)) }
{}

/// The limits of numbers, networks, trains, timetables, holds, requests and journals.
pub fn limits_are_these()
    ensures network_file_bytes { MAX_NETWORK_FILE_BYTES ≡ 67108864 }
    ensures timetable_file_bytes { MAX_TIMETABLE_FILE_BYTES ≡ 16777216 }
    ensures id_bytes { MAX_ID_BYTES ≡ 255 }
    ensures track_length_m { MAX_TRACK_LENGTH_M ≡ 1000000 }
    ensures trains { MAX_TRAINS ≡ 65536 }
    ensures base_claims { MAX_BASE_CLAIMS ≡ 262144 }
    ensures objects { MAX_OBJECTS ≡ 65536 }
    ensures cells { MAX_CELLS ≡ 1048576 }
    ensures block_length_m { MAX_BLOCK_LENGTH_M ≡ 10000000 }
    ensures sight_m { MAX_SIGHT_M ≡ 100000 }
    ensures speed_mm_s { MAX_SPEED_MM_S ≡ 200000 }
    ensures train_length_m { MAX_TRAIN_LENGTH_M ≡ 5000 }
    ensures accel_mm_s2 { MAX_ACCEL_MM_S2 ≡ 10000 }
    ensures allowance_percent { MAX_ALLOWANCE_PERCENT ≡ 1000 }
    ensures train_name_bytes { MAX_TRAIN_NAME_BYTES ≡ 255 }
    ensures tick_s { MAX_TICK_S ≡ 3600 }
    ensures setting { MAX_SETTING ≡ 1000 }
    ensures release { MAX_RELEASE ≡ 1000 }
    ensures horizon { MAX_HORIZON ≡ 17280 }
    ensures least_journal_bytes { MIN_JOURNAL_BYTES ≡ 77 }
    ensures journal_bytes { MAX_JOURNAL_BYTES ≡ 268435456 }
    ensures tick { MAX_TICK ≡ pos 100000 }
    ensures far_tick { FAR_TICK ≡ pos 1099511627776 }
    ensures number { MAX_NUMBER ≡ 9223372036854775807 }
    ensures owner_bytes { MAX_OWNER_BYTES ≡ 32 }
    ensures stops { MAX_STOPS ≡ 16 }
    ensures dwell { MAX_DWELL ≡ 17280 }
    ensures pinned_runs { MAX_PINNED_RUNS ≡ 4096 }
    ensures hold_claims { MAX_HOLD_CLAIMS ≡ 64 }
    ensures reason_bytes { MAX_REASON_BYTES ≡ 255 }
    ensures places { MAX_PLACES ≡ 65536 }
{}
