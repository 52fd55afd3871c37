// The rules of a table, over any record kind, hash family and store: each function's contract is a theorem.
#![tactic(auto)]

ghost use Rattle.rules.specs.Theorems.{ARouteCountsMoves, ASoundTableIsHeld, AnEmptyTableIsSound, AnEraseKeepsSound, AnInsertIsAnAssignment, AnInsertKeepsSound, BlockedIsFull, LayersAreFewest, OwnBucketsLieBelow};

pub fn own_buckets_lie_below() -> u8
    ensures { OwnBucketsLieBelow }
{
    0
}

pub fn an_empty_table_is_sound<R, K>() -> u8
    ensures { AnEmptyTableIsSound R K }
{
    0
}

pub fn blocked_is_full<R, K>() -> u8
    ensures { BlockedIsFull R K }
{
    0
}

pub fn layers_are_fewest<R, K>() -> u8
    ensures { LayersAreFewest R K }
{
    0
}

pub fn an_insert_keeps_sound<R, K>() -> u8
    ensures { AnInsertKeepsSound R K }
{
    0
}

pub fn an_insert_is_an_assignment<R, K>() -> u8
    ensures { AnInsertIsAnAssignment R K }
{
    0
}

pub fn a_route_counts_moves<R, K>() -> u8
    ensures { ARouteCountsMoves R K }
{
    0
}

pub fn a_sound_table_is_held<R, K>() -> u8
    ensures { ASoundTableIsHeld R K }
{
    0
}

pub fn an_erase_keeps_sound<R, K>() -> u8
    ensures { AnEraseKeepsSound R K }
{
    0
}
