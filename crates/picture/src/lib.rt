//! What a script shows: the picture of its marks and the outline of its groups, for any groups and marks; and what documents show by any rules.
//! Each function here stands for a law: its contract is the law, for every script and every document.

#![tactic(auto)]

ghost use Rattle.picture.specs.Script.{BalanceIsCounted, GroupsTakeTwoEventsMarksOne};
ghost use Rattle.picture.specs.Picture.{PictureHasEachMarkOnce};
ghost use Rattle.picture.specs.Outline.{OutlineTellsTheScript, PictureIsInTheOutline};
ghost use Rattle.picture.specs.Feeding.{FeedingKeepsBalance, FeedingKeepsThePicture, FeedingKeepsTheOutline, FedIsToldByItsOutline, FeedingAddsTheBaseAlone, FeedingCounts, FeedingTwiceIsFeedingOnce};
ghost use Rattle.picture.specs.Nodes.{OrderHasEachNodeOnce};
ghost use Rattle.picture.specs.Rules.{NestLengthIsBounded};
ghost use Rattle.picture.specs.Document.{NestHasTheDocumentPicture, FedNestHasTheDocumentPicture, NestIsToldByTheDocumentOutline, FedNestIsToldByTheDocumentOutline, NestOpensAndMarksWhatIsShown, NestCounts};
ghost use Rattle.picture.specs.Brackets.{EachGroupOpensOnceRoundWhatItHolds};
ghost use Rattle.picture.specs.Locality.{LeafRestsOnItsPath};
ghost use Rattle.picture.specs.Sample.{SampleIsSeen, BadScriptsAreToldApart};

// Scripts

/// A script is balanced exactly when counting its open groups, from none on, ends at none.
#[tactic(auto, using(crate::proofs::Scripts::balance_is_counted))]
pub fn balance_is_counted<Group, Mark>()
    ensures { BalanceIsCounted Group Mark }
{}

/// A balanced script has an open and a close for each of its groups, one event for each of its marks, and nothing else.
#[tactic(auto, using(crate::proofs::Scripts::groups_take_two_events_marks_one))]
pub fn groups_take_two_events_marks_one<Group, Mark>()
    ensures { GroupsTakeTwoEventsMarksOne Group Mark }
{}

/// The marks of a picture are those that its script makes, in order, each once.
#[tactic(auto, using(crate::proofs::Pictures::picture_has_each_mark_once))]
pub fn picture_has_each_mark_once<Group, Mark>()
    ensures { PictureHasEachMarkOnce Group Mark }
{}

/// Two balanced scripts with the same outline are the same script.
#[tactic(auto, using(crate::proofs::Outlines::outline_tells_the_script))]
pub fn outline_tells_the_script<Group, Mark>()
    ensures { OutlineTellsTheScript Group Mark }
{}

/// A picture is the outline of its script without the groups.
#[tactic(auto, using(crate::proofs::Outlines::picture_is_in_the_outline))]
pub fn picture_is_in_the_outline<Group, Mark>()
    ensures { PictureIsInTheOutline Group Mark }
{}

// Scripts fed to a sink that has a base of its own and rewrites what it is given

/// A balanced script, fed, is balanced again.
pub fn feeding_keeps_balance<Group, Mark, Other, Sign>()
    ensures { FeedingKeepsBalance Group Mark Other Sign }
{}

/// A balanced script, fed, has the same marks in the same order, each once, each chain rewritten and behind the base.
#[tactic(auto, using(crate::proofs::Feeding::feeding_keeps_the_picture))]
pub fn feeding_keeps_the_picture<Group, Mark, Other, Sign>()
    ensures { FeedingKeepsThePicture Group Mark Other Sign }
{}

/// A balanced script, fed, has the outline of the base and then its own, rewritten and behind the base.
#[tactic(auto, using(crate::proofs::Feeding::feeding_keeps_the_outline))]
pub fn feeding_keeps_the_outline<Group, Mark, Other, Sign>()
    ensures { FeedingKeepsTheOutline Group Mark Other Sign }
{}

/// No other balanced script has that outline.
pub fn fed_is_told_by_its_outline<Group, Mark, Other, Sign>()
    ensures { FedIsToldByItsOutline Group Mark Other Sign }
{}

/// A script, fed, opens the base's groups and then its own, rewritten, and makes its own marks.
pub fn feeding_adds_the_base_alone<Group, Mark, Other, Sign>()
    ensures { FeedingAddsTheBaseAlone Group Mark Other Sign }
{}

/// How many groups, marks and events a script, fed, has.
pub fn feeding_counts<Group, Mark, Other, Sign>()
    ensures { FeedingCounts Group Mark Other Sign }
{}

/// A script fed to one sink, and from there to another, stands as if fed at once.
pub fn feeding_twice_is_feeding_once<Group, Mark, Other, Sign, Third, Token>()
    ensures { FeedingTwiceIsFeedingOnce Group Mark Other Sign Third Token }
{}

// Documents, by any rules

/// Document order has each node once, and nothing else.
#[tactic(auto, using(crate::proofs::Orders::order_has_each_node_once))]
pub fn order_has_each_node_once<Item>()
    ensures { OrderHasEachNodeOnce Item }
{}

/// Where no node gives more than so many events, a nest has at most so many for each node.
#[tactic(auto, using(crate::proofs::Orders::nest_length_is_bounded))]
pub fn nest_length_is_bounded<Item, State, Group, Mark>()
    ensures { NestLengthIsBounded Item State Group Mark }
{}

/// The picture of the nest is the picture of the document, which knows the paths to the leaves alone.
#[tactic(auto, using(crate::proofs::Documents::nest_has_the_document_picture))]
pub fn nest_has_the_document_picture<Item, State, Group, Mark>()
    ensures { NestHasTheDocumentPicture Item State Group Mark }
{}

/// The nest, fed, has the picture of the document rewritten and behind the base.
#[tactic(auto, using(crate::proofs::Documents::fed_nest_has_the_document_picture))]
pub fn fed_nest_has_the_document_picture<Item, State, Group, Mark, Other, Sign>()
    ensures { FedNestHasTheDocumentPicture Item State Group Mark Other Sign }
{}

/// A script is balanced and has the outline of the document exactly when it is the nest.
#[tactic(auto, using(crate::proofs::Nests::balanced_nest, crate::proofs::Documents::nest_outline, crate::proofs::Outlines::outline_tells_the_script))]
pub fn nest_is_told_by_the_document_outline<Item, State, Group, Mark>()
    ensures { NestIsToldByTheDocumentOutline Item State Group Mark }
{}

/// A script is balanced and has the outline of the document, rewritten and behind the base, exactly when it is the nest, fed.
pub fn fed_nest_is_told_by_the_document_outline<Item, State, Group, Mark, Other, Sign>()
    ensures { FedNestIsToldByTheDocumentOutline Item State Group Mark Other Sign }
{}

/// The nest opens the groups of the shown nodes and makes the marks of the shown leaves, in document order.
#[tactic(auto, using(crate::proofs::Documents::nest_groups, crate::proofs::Documents::nest_marks))]
pub fn nest_opens_and_marks_what_is_shown<Item, State, Group, Mark>()
    ensures { NestOpensAndMarksWhatIsShown Item State Group Mark }
{}

/// How many groups and marks a nest has.
#[tactic(auto, using(crate::proofs::Documents::count_groups, crate::proofs::Documents::count_marks))]
pub fn nest_counts<Item, State, Group, Mark>()
    ensures { NestCounts Item State Group Mark }
{}

/// Each group of a shown node opens once, round all that it holds, empty ones too.
#[tactic(auto, using(crate::proofs::Stretches::each_group_opens_once_round_what_it_holds))]
pub fn each_group_opens_once_round_what_it_holds<Item, State, Group, Mark>()
    ensures { EachGroupOpensOnceRoundWhatItHolds Item State Group Mark }
{}

/// How a leaf is seen, and whether, rests on the nodes of its path alone.
pub fn leaf_rests_on_its_path<Item, State, Group, Mark>()
    ensures { LeafRestsOnItsPath Item State Group Mark }
{}

// A small document

/// The sample is a document to which the laws apply; so stand its nest and its picture.
#[tactic(auto, using(crate::proofs::Samples::sample_is_seen))]
pub fn sample_is_seen()
    ensures { SampleIsSeen }
{}

/// Scripts with a group split in two, closed early or late, left out or opened twice have the sample's picture, but are told apart.
#[tactic(auto, using(crate::proofs::Samples::bad_scripts_are_told_apart))]
pub fn bad_scripts_are_told_apart()
    ensures { BadScriptsAreToldApart }
{}
