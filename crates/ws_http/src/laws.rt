// What holds of every list of pieces.
ghost use Rattle.ws_http.specs.Pieces.{FinalStays, InAnyPieces, OneVerdict};
ghost use Rattle.ws_http.specs.Responses.{FitOutcomes, ReplyStays};
ghost use Rattle.ws_http.specs.ReadBack.{ReadsBack};
ghost use Rattle.ws_http.specs.ReplyPieces.{FaultsAreGot, OneReply, ReplyInAnyPieces};

/// A verdict that is final stays, whatever comes behind the bytes.
pub fn final_verdict_stays()
    ensures { FinalStays }
{}

/// For every list of pieces the answers of a request's reader are those on the pieces joined.
pub fn request_in_any_pieces()
    ensures { InAnyPieces }
{}

/// A verdict on a response that is final stays, whatever comes behind the bytes.
pub fn final_reply_stays()
    ensures { ReplyStays }
{}

/// Each outcome that an exchange got is fit.
pub fn got_outcomes_are_fit()
    ensures { FitOutcomes }
{}

/// For every list of pieces the answers of a response's reader are those on the pieces joined.
pub fn response_in_any_pieces()
    ensures { ReplyInAnyPieces }
{}

/// The fault that a response's reader stands for is the outcome of an exchange that gave the bytes.
pub fn faults_are_got()
    ensures { FaultsAreGot }
{}

/// The bytes of a request have one verdict, but where they end inside a target.
pub fn one_verdict()
    ensures { OneVerdict }
{}

/// The bytes of a response have one verdict.
pub fn one_reply()
    ensures { OneReply }
{}

/// What `write_request` wrote of parts that make a request reads back as these parts.
pub fn written_request_reads_back()
    ensures { ReadsBack }
{}
