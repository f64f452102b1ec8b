// The laws of the codes that speak of no one byte: how far the code words lie apart, and that the limits on turned bits are sharp.
ghost use Rattle.coding.specs.Laws.{MinimumDistance, NumberLimitSharp, LetterLimitSharp, Examples};

// A function whose contract carries the laws; it answers nothing.
pub fn code_laws()
    ensures apart { MinimumDistance }
    ensures number_limit { NumberLimitSharp }
    ensures letter_limit { LetterLimitSharp }
    ensures examples { Examples }
{}
