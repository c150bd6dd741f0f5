//! What is read of a piece, of the frames of whole messages, and of cut ones.

ghost use Rattle.std.specs.Prelude.{ℕ, List};
ghost use Rattle.lin_transport.specs.Transport.{Ear, Heard};
ghost use Rattle.lin_transport.specs.Law.{Addressed, ReadsFirstFrames, ReadsBack, ReadsAcross};
ghost use Rattle.lin_transport.specs.Law.{LacksCut, AddsMessage, AddsNothing, ResetAddsNothing};

/// The law of one piece: what is read of frames between two cuts is the message whose frames stand
/// first, with unused bytes of any value, and nothing where there is no such message.
pub fn reads_first_frames()
    ensures { (nad : ℕ) (message : List ℕ) (piece : List (List ℕ))
        → ReadsFirstFrames nad message piece }
{}

/// The law of segmentation and reassembly: the reading of the frames of messages to a receiver, to
/// its own address or to all, is these messages, whatever frames of other addresses stand between
/// them. Where a reset cuts a message, exactly that one isn't read.
pub fn reads_what_is_sent()
    ensures whole { (ear : Ear) (messages : List Addressed) (given : List Heard)
        → ReadsBack ear messages given }
    ensures across { (ear : Ear) (earlier later : List Addressed) (given : List Heard)
        → ReadsAcross ear earlier later given }
    ensures cut { (ear : Ear) (earlier later : List Addressed) (m : Addressed) (k j : ℕ)
        (given : List Heard) → LacksCut ear earlier m k j later given }
    ensures message { (ear : Ear) (m : Addressed) (heard : List Heard) → AddsMessage ear m heard }
    ensures part { (ear : Ear) (m : Addressed) (k : ℕ) (heard : List Heard)
        → AddsNothing ear m k heard }
    ensures reset { (ear : Ear) (heard : List Heard) → ResetAddsNothing ear heard }
{}
