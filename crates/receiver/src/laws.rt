// The laws that compare two runs of calls.
ghost use Rattle.receiver.specs.Promises.{Determined, Repetition, SecondCopy, Commutation, Reordering, CommutationOfPages, PageDependence, Frame};

// A function whose contract carries the laws; it answers nothing.
pub fn order_laws()
    ensures determined { Determined }
    ensures frame { Frame }
    ensures repetition { Repetition }
    ensures second_copy { SecondCopy }
    ensures commutation { Commutation }
    ensures reordering { Reordering }
    ensures other_pages { CommutationOfPages }
    ensures dependence { PageDependence }
{}
