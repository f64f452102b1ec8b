// A row that is asked for, with what it means for what was sent.
ghost use Rattle.store.specs.Slots.{RowOf};
ghost use Rattle.receiver.specs.Promises.{RowSound, RowText, RowOfRun};

// The forty letters of a row, 0 where none is known, as a part of the store; nothing if the page isn't there, there is no such row, or the store isn't as it should be.
pub fn row<'a>(store: &'a [u8], page: u64, at: u64) -> &'a [u8]
    ensures part { RowOf store.now page at result.now }
    ensures sound { RowSound store.now page at result.now }
    ensures text { RowText store.now page at result.now }
    ensures after_run { RowOfRun store.now page at result.now }
{
    store::row(store, page, at)
}
