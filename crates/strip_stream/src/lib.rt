// The check of a job strip, in parts of any size by `begin`, `feed` and `finish`, or as a whole by `check`.
#![tactic(auto)]

ghost use Rattle.std.specs.Prelude.{◌≡◌, Ok};
ghost use Rattle.strip.specs.Strip.{check_strip};
ghost use Rattle.strip_stream.specs.Stream.{begun, left, taken, stepped, fed, finished};

use refusal::Refusal;
use strip::{Job, words};

// What is kept between two parts: every whole word stood at its place.
#[derive(Clone, Copy)]
pub struct Reader {
    // the whole words read
    pub words: usize,
    // how many bytes of the next word are read, 0 to 3
    pub held: u32,
    // the last three bytes of it, the oldest first
    pub bytes: [u8; 3],
    // the words before the first plane
    pub head: [u32; 10],
}

impl Reader {
    // A reader of the next strip.
    pub fn begin() -> Reader
        ensures { result ≡ begun }
    {
        Reader {
            words: 0,
            held: 0,
            bytes: [0; 3],
            head: [0; 10],
        }
    }

    // A whole word more. The count cannot overflow, since no word that stands at its place is past the end.
    #[tactic(auto, using(crate::proofs::Streamed::counted), unfolding(crate::specs::Stream::taken, crate::specs::Stream::left, lists::specs::Lists::choose))]
    fn take_word(&mut self, w: u32) -> Result<(), Refusal>
        ensures { left result self.new ≡ taken self.old w }
    {
        let place = words::place_at(
            words::payload(self.head[0]),
            words::payload(self.head[9]),
            self.words,
        );
        if !words::stands_at(place, self.words, w) {
            return Err(Refusal::StripMalformed);
        }
        if self.words < 10 {
            self.head[self.words] = w;
        }
        self.words += 1;
        self.held = 0;
        self.bytes = [0; 3];
        Ok(())
    }

    // A byte more, in place: a reader that goes by value for each byte takes twice as long.
    #[tactic(auto, unfolding(crate::specs::Stream::stepped, crate::specs::Stream::left, lists::specs::Lists::choose))]
    fn step(&mut self, b: u8) -> Result<(), Refusal>
        ensures { left result self.new ≡ stepped self.old b }
    {
        let [b0, b1, b2] = self.bytes;
        if self.held < 3 {
            self.held += 1;
            self.bytes = [b1, b2, b];
            return Ok(());
        }
        self.take_word(words::little_endian([b0, b1, b2, b]))
    }

    // A part more of the strip.
    pub fn feed(self, bytes: &[u8]) -> Result<Reader, Refusal>
        ensures { result ≡ fed (Ok self) bytes.now }
    {
        let mut reader = self;
        for b in bytes {
            reader.step(*b)?;
        }
        Ok(reader)
    }

    // The strip is at its end.
    #[tactic(auto, unfolding(crate::specs::Stream::finished, strip::specs::Strip::job_of, lists::specs::Lists::choose))]
    pub fn finish(self) -> Result<Job, Refusal>
        ensures { result ≡ finished (Ok self) }
    {
        let head = self.head;
        let elements = words::payload(head[0]) as usize;
        let mirrors = words::payload(head[9]) as usize;
        if self.held != 0 || self.words != 10 + 18 * mirrors + 16 * elements + 1 {
            return Err(Refusal::StripMalformed);
        }
        Ok(Job {
            elements,
            fraction: words::number(head[1], head[2], head[3]),
            radius: words::number(head[4], head[5], head[6]),
            sharpen: words::payload(head[7]),
            max_iterations: words::payload(head[8]) as usize,
            mirrors,
        })
    }
}

// A strip that comes in parts: its reader, or the refusal that it stays with, whatever comes, once a word did not stand at its place.
#[derive(Clone, Copy)]
pub struct Stream {
    pub reader: Result<Reader, Refusal>,
}

// The next strip, of which nothing is read.
pub fn begin() -> Stream
    ensures { result.reader ≡ Ok begun }
{
    Stream {
        reader: Ok(Reader::begin()),
    }
}

// A part more of the strip.
#[tactic(auto, using(crate::proofs::Parts::fed_refused))]
pub fn feed(s: Stream, bytes: &[u8]) -> Stream
    ensures { result.reader ≡ fed s.reader bytes.now }
{
    let reader = match s.reader {
        Ok(reader) => reader.feed(bytes),
        Err(why) => Err(why),
    };
    Stream { reader }
}

// The strip is at its end.
#[tactic(auto, unfolding(crate::specs::Stream::finished))]
pub fn finish(s: Stream) -> Result<Job, Refusal>
    ensures { result ≡ finished s.reader }
{
    match s.reader {
        Ok(reader) => reader.finish(),
        Err(refusal) => Err(refusal),
    }
}

// The whole strip at once.
pub fn check(bytes: &[u8]) -> Result<Job, Refusal>
    ensures { result ≡ check_strip bytes.now }
{
    finish(feed(begin(), bytes))
}
