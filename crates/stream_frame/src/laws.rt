// Laws of streams of frames, over the definitions that `Demux` meets.
ghost use Rattle.stream_frame.specs.Laws.{OneReading, GoesOn, FirstWrong, GivesBack};

/// A stream of frames has one reading.
pub fn law_one_reading()
    ensures { OneReading }
{}

/// What a demultiplexer takes without a fault begins a stream of frames.
pub fn law_goes_on()
    ensures { GoesOn }
{}

/// A fault stands at the first byte with which no stream of frames goes on.
pub fn law_first_wrong()
    ensures { FirstWrong }
{}

/// Encoding and then decoding gives the payloads back, however the stream was cut.
pub fn law_gives_back()
    ensures { GivesBack }
{}
