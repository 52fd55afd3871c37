// What holds of modules: each function's contract is a theorem.
ghost use Rattle.modules.specs.Laws.{CheckHasOneAnswer, FindCellHasOneAnswer, FindHasOneAnswer, OpenHasOneAnswer, WhatWasClosedOpens};

pub fn check_has_one_answer() -> u8
    ensures { CheckHasOneAnswer }
{
    0
}

pub fn find_cell_has_one_answer() -> u8
    ensures { FindCellHasOneAnswer }
{
    0
}

pub fn find_has_one_answer<R>() -> u8
    ensures { FindHasOneAnswer R }
{
    0
}

pub fn open_has_one_answer<R, K>() -> u8
    ensures { OpenHasOneAnswer R K }
{
    0
}

pub fn what_was_closed_opens<R, K>() -> u8
    ensures { WhatWasClosedOpens R K }
{
    0
}
