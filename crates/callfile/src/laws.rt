// The laws of reading: each stands as the contract of a function.
ghost use Rattle.callfile.specs.Laws.{FieldFound, FieldCut, ReadsBack, ReadsOnly, TellsCut, TellsUnknown, TellsLength};
ghost use Rattle.callfile.specs.Laws.{PlaceMoves, ReadingGoesOn, ReadsAll, ReadsToFault};

// A field is found where all its bytes are there, whatever follows, and not where they break off.
pub fn fields_are_found()
    ensures found { FieldFound }
    ensures cut { FieldCut }
{}

// A call is read from its bytes, whatever follows, and from no others.
pub fn calls_read_back()
    ensures back { ReadsBack }
    ensures only { ReadsOnly }
{}

// Which fault a field has that makes no call.
pub fn faults_are_told()
    ensures cut { TellsCut }
    ensures unknown { TellsUnknown }
    ensures wrong_length { TellsLength }
{}

// A call moves a reader on within the file; a fault, or the end, leaves it where it is.
pub fn place_moves()
    ensures { PlaceMoves }
{}

// A reading from a place is the call there and the reading from behind it.
pub fn reading_goes_on()
    ensures { ReadingGoesOn }
{}

// A file of calls is read as these calls, up to bytes that make none.
pub fn files_read_back()
    ensures all { ReadsAll }
    ensures to_fault { ReadsToFault }
{}
