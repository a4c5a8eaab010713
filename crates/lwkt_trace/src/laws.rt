ghost use Rattle.lwkt_trace.specs.Readback.{EventsAreReadBack, EventListsAreReadBack, MessagesAreReadBack, EndsAreReadBack};
ghost use Rattle.lwkt_trace.specs.Values.{TokensAreReadBack, ClosingIsReadBack, TraceIsReadBack};
ghost use Rattle.lwkt_trace.specs.Printed.{TextIsOfValue, WrittenIsReadBack};

/// The theorem that the list which an event is written as is read as this event, where its parts are of their types; of a
/// written give without its section.
pub fn events_are_read_back()
    // One event.
    ensures each { EventsAreReadBack }

    // A list of events.
    ensures all { EventListsAreReadBack }
{}

/// The theorems that the lists which the messages of an opening, and where messages are at the close, are written as are read
/// as these messages and these places.
pub fn messages_are_read_back()
    // The messages of the opening.
    ensures opening { MessagesAreReadBack }

    // Where messages are at the close.
    ensures ends { EndsAreReadBack }
{}

/// The theorems that the values which a trace is written as, its parts and the whole, are read as what they were written for.
pub fn traces_are_read_back()
    // The tokens of the opening.
    ensures tokens { TokensAreReadBack }

    // The closing values.
    ensures closing { ClosingIsReadBack }

    // The whole trace.
    ensures whole { TraceIsReadBack }
{}

/// The theorems that the text which a trace is written as is a text of its value, and that its bytes are read as what they were
/// written for.
pub fn written_traces_are_read_back()
    // The text and the value.
    ensures text { TextIsOfValue }

    // The bytes and the trace.
    ensures bytes { WrittenIsReadBack }
{}
