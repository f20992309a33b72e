//! Laws, as functions that do nothing.
ghost use Rattle.tk_tree.specs.Laws.{OneLeafDecides, NextIsFirst, PrevIsLast, ChangesStand, UpdatesStand, GroupsStand, NumbersStayGiven, NumbersGrow, OthersStay, UpdateIsStored, FrontsAreStored, FormedIsRead};

/// A valid tree is looked up along one path.
pub fn one_path_decides()
    ensures leaf { OneLeafDecides }
    ensures next { NextIsFirst }
    ensures prev { PrevIsLast }
{}

/// Updates of a valid tree are those of its records.
pub fn updates_stand()
    ensures change { ChangesStand }
    ensures update { UpdatesStand }
    ensures groups { GroupsStand }
{}

/// No page number is given twice.
pub fn numbers_are_given()
    ensures once { NumbersStayGiven }
    ensures grow { NumbersGrow }
{}

/// The page file is the tree's pages, after each front of its groups too.
pub fn pages_are_the_tree()
    ensures others { OthersStay }
    ensures stored { UpdateIsStored }
    ensures fronts { FrontsAreStored }
    ensures read { FormedIsRead }
{}
