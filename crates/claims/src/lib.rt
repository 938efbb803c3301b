// The claims, over the definitions that the contracts cite. A function here does nothing: its contract is the claim, so that the crate is
// proved only with
// the claim as it is stated, in specs/ here or of the crate that has the definitions.
#![tactic(auto)]

ghost use Rattle.numbers.specs.Order.{HighestDecides, WalkEnds};
ghost use Rattle.sha256_block.specs.Constants.{RootWords};
ghost use Rattle.sha256.specs.Running.{RunningHash};
ghost use Rattle.counts.specs.Counts.{CountsFit};
ghost use Rattle.codewords.specs.Operations.{RankUnrank};
ghost use Rattle.listing.specs.Listing.{FirstEleven, Example};
ghost use Rattle.sheet_reader.specs.Sheet.{Exact, ProfileLine};
ghost use Rattle.stored_key.specs.RoundTrip.{WrittenKeyIsRead, ReadKeyIsWritten};
ghost use Rattle.claims.specs.Arrivals.{NoLeafAcceptedTwice, ArrivalsAccepted};
ghost use Rattle.claims.specs.Arrived.{ArrivedAccepted};
ghost use Rattle.claims.specs.Bits.{LargestBits, NumbersFit, SmallCounts};
ghost use Rattle.claims.specs.Demand3.{Demand3};
ghost use Rattle.claims.specs.Editions.{JudgedByEdition, EditionsShare};
ghost use Rattle.claims.specs.Gate.{GateFigures, GateCount};
ghost use Rattle.claims.specs.Hashing.{AbcDigest};
ghost use Rattle.claims.specs.History.{WindowHistory};
ghost use Rattle.claims.specs.Issuing.{OrdersIssued, NoMoreThanLeaves, RoundsIssue};
ghost use Rattle.claims.specs.Judged.{JudgedByRoot};
ghost use Rattle.claims.specs.Largest.{LargestCode};
ghost use Rattle.claims.specs.OneTime.{RecoversRevealed, ClimbsToRoot};
ghost use Rattle.claims.specs.PowerCuts.{PowerCuts, RoundsInTurn};
ghost use Rattle.claims.specs.Rows.{Ordered, RankExact};
ghost use Rattle.claims.specs.Sheets.{WrittenSheetIsRead, ReadSheetIsWritten};
ghost use Rattle.claims.specs.Trial.{TrialValues};

// Demand 3.
pub fn demand_3()
    ensures { Demand3 }
{}

// Numbers and their rows.
pub fn rows_in_order()
    ensures { Ordered }
{}

pub fn rank_exact()
    ensures { RankExact }
{}

pub fn rank_unrank()
    ensures { RankUnrank }
{}

pub fn counts_fit()
    ensures { CountsFit }
{}

// Numbers compared.
pub fn highest_word_decides()
    ensures { HighestDecides }
{}

pub fn walk_ends()
    ensures { WalkEnds }
{}

// Bits by the count.
pub fn largest_bits()
    ensures { LargestBits }
{}

pub fn numbers_fit()
    ensures { NumbersFit }
{}

pub fn small_counts()
    ensures { SmallCounts }
{}

// The largest code of its length, and the gate's count.
pub fn largest_code()
    ensures { LargestCode }
{}

pub fn gate_count()
    ensures { GateCount }
{}

// Signing and checking.
pub fn judged_by_root()
    ensures { JudgedByRoot }
{}

pub fn gate_figures()
    ensures { GateFigures }
{}

pub fn recovers_revealed()
    ensures { RecoversRevealed }
{}

pub fn climbs_to_root()
    ensures { ClimbsToRoot }
{}

// Orders by two routes.
pub fn no_leaf_accepted_twice()
    ensures { NoLeafAcceptedTwice }
{}

pub fn window_history()
    ensures { WindowHistory }
{}

pub fn arrivals_accepted()
    ensures { ArrivalsAccepted }
{}

pub fn arrived_accepted()
    ensures { ArrivedAccepted }
{}

// Reserve, then sign.
pub fn power_cuts()
    ensures { PowerCuts }
{}

pub fn rounds_in_turn()
    ensures { RoundsInTurn }
{}

pub fn orders_issued()
    ensures { OrdersIssued }
{}

pub fn no_more_than_leaves()
    ensures { NoMoreThanLeaves }
{}

pub fn rounds_issue()
    ensures { RoundsIssue }
{}

pub fn written_key_is_read()
    ensures { WrittenKeyIsRead }
{}

pub fn read_key_is_written()
    ensures { ReadKeyIsWritten }
{}

// The editions.
pub fn judged_by_edition()
    ensures { JudgedByEdition }
{}

pub fn editions_share()
    ensures { EditionsShare }
{}

// SHA-256.
pub fn root_words()
    ensures { RootWords }
{}

pub fn abc_digest()
    ensures { AbcDigest }
{}

pub fn running_hash()
    ensures { RunningHash }
{}

// The sheet and the listing.
pub fn sheets_exact()
    ensures { Exact }
{}

pub fn profile_line()
    ensures { ProfileLine }
{}

pub fn written_is_read()
    ensures { WrittenSheetIsRead }
{}

pub fn read_is_written()
    ensures { ReadSheetIsWritten }
{}

pub fn first_eleven()
    ensures { FirstEleven }
{}

pub fn listing_example()
    ensures { Example }
{}

// The trial values.
pub fn trial_values()
    ensures { TrialValues }
{}
