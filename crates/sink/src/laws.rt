ghost use Rattle.sink.specs.Laws.{CallsKeepLimitBaseAndRewriting, RefusedCallsChangeNothing, EqualGroupsDoTheSame, EqualMarksDoTheSame, RunsStayBounded};

/// What holds of the calls of every sink, and of whole runs of them.
#[tactic(auto, using(crate::proofs::Lawful::calls_keep, crate::proofs::Lawful::refused_changes_nothing, crate::proofs::Lawful::equal_groups, crate::proofs::Lawful::equal_marks, crate::proofs::Lawful::runs_bounded))]
pub fn calls_stand()
    ensures kept { CallsKeepLimitBaseAndRewriting }
    ensures refused { RefusedCallsChangeNothing }
    ensures groups { EqualGroupsDoTheSame }
    ensures marks { EqualMarksDoTheSame }
    ensures runs { RunsStayBounded }
{}
