//! The replay of a script, line by line, over a host.

ghost use Rattle.std.specs.Prelude.{◌≡◌, ◌≤◌, ◌<◌, ◌++◌, IfOk, OnOk, length, true};
ghost use Rattle.usi_lines.specs.Seen.{line_of};
ghost use Rattle.usi_replay.specs.Seen.{play_of};
ghost use Rattle.usi_replay.specs.Script.{Open, Close, Send};
ghost use Rattle.usi_replay.specs.Sessions.{RunsBy};
ghost use Rattle.usi_replay.specs.Playback.{KeepsPlayback, KeepsUse, CollectsAll, IsFedLine, IsSent, IsClosedAt, IsOpenedUnder, IsPlaybackOutput, Plays, PlaysLine, is_used_at, transcript_index, transcript_section};

use crate::script_line::{ScriptLine, meaning};
use crate::sessions;
use crate::transcript::Transcript;
use host_core::Host;
use std::alloc::{AllocError, Allocator};
use std::hash::BuildHasher;
use usi_lines::Line;
use usi_session::CHUNK_MAX;

/// Adds the section of a `+` line to the output.
fn add_section<A: Allocator>(
    out: &mut Vec<u8, A>,
    transcript: &Transcript<A>,
) -> Result<(), AllocError>
    ensures { OnOk result (out.new.items ≡ out.old.items ++ transcript_section transcript.now) }
{
    out.extend_from_slice(b"== ")?;
    out.extend_from_slice(&[transcript.name(), b'\n'])?;
    out.extend_from_slice(transcript.answer())
}

/// A replay: the host, the most search steps of a session in a round, and one transcript for each
/// `+` line so far, in script order.
#[derive(Drop)]
pub struct Playback<S: BuildHasher, A: Allocator + Copy> {
    pub alloc: A,
    pub slice: u64,
    pub host: Host<S, A>,
    pub transcripts: Vec<Transcript<A>, A>,
}

impl<S: BuildHasher, A: Allocator + Copy> Playback<S, A> {
    /// The index of the transcript with the name in use, or the number of transcripts.
    fn place_of(&self, name: u8) -> usize
        ensures value { result ≡ transcript_index name self.now.transcripts.items }
        ensures within { result ≤ length self.now.transcripts.items }
    {
        for i in 0..self.transcripts.len() {
            if self.transcripts[i].is_under(name) {
                return i;
            }
        }
        self.transcripts.len()
    }

    /// Makes rounds until the session of the `+` line has nothing pending, and moves its output
    /// into the transcript.
    fn collect(&mut self, place: usize) -> Result<(), AllocError>
        requires within { place < length self.old.transcripts.items }
        requires least { 1 ≤ self.old.slice }
        ensures kept { OnOk result (KeepsPlayback (play_of self.old) (play_of self.new)) }
        ensures all { OnOk result (CollectsAll (play_of self.old) (play_of self.new) place) }
        ensures used { OnOk result (KeepsUse (play_of self.old) (play_of self.new) place) }
        ensures len { length self.new.transcripts.items ≡ length self.old.transcripts.items }
        ensures run { OnOk result (RunsBy self.old.slice self.old.host self.new.host) }
        ensures slice { self.new.slice ≡ self.old.slice }
    {
        let Some(id) = self.transcripts[place].open_id() else {
            return Ok(());
        };
        sessions::settle(&mut self.host, id, self.slice)?;
        sessions::take_output(&mut self.host, id, &mut self.transcripts[place])?;
        Ok(())
    }

    /// Feeds a chunk of at most 4,096 bytes to the session of the `+` line once it has nothing
    /// pending. Drops the chunk if the line was refused a session or the session is over.
    fn feed(&mut self, place: usize, chunk: &[u8]) -> Result<(), AllocError>
        requires within { place < length self.old.transcripts.items }
        requires least { 1 ≤ self.old.slice }
        requires used { is_used_at (play_of self.old) place ≡ true }
        ensures fed { OnOk result (IsSent (play_of self.old) (play_of self.new) place chunk.now) }
        ensures used { OnOk result (is_used_at (play_of self.new) place ≡ true) }
        ensures len { length self.new.transcripts.items ≡ length self.old.transcripts.items }
        ensures run { OnOk result (RunsBy self.old.slice self.old.host self.new.host) }
        ensures slice { self.new.slice ≡ self.old.slice }
    {
        self.collect(place)?;
        let Some(id) = self.transcripts[place].open_id() else {
            return Ok(());
        };
        sessions::feed(&mut self.host, id, chunk)?;
        Ok(())
    }

    /// Feeds a text and an LF to the session of the `+` line, and makes one round.
    fn send(&mut self, place: usize, text: &[u8]) -> Result<(), AllocError>
        requires within { place < length self.old.transcripts.items }
        requires least { 1 ≤ self.old.slice }
        requires used { is_used_at (play_of self.old) place ≡ true }
        ensures fed { OnOk result
            (IsFedLine (play_of self.old) (play_of self.new) place text.now) }
        ensures run { OnOk result (RunsBy self.old.slice self.old.host self.new.host) }
        ensures slice { self.new.slice ≡ self.old.slice }
    {
        let mut rest = text;
        'chunks: while !rest.is_empty() {
            let (chunk, left) = rest.split_at(rest.len().min(CHUNK_MAX));
            self.feed(place, chunk)?;
            rest = left;
        }
        self.feed(place, b"\n")?;
        sessions::work_round(&mut self.host, self.slice)?;
        Ok(())
    }

    /// Closes the session of the `+` line once it has nothing pending, and frees the name.
    fn close(&mut self, place: usize) -> Result<(), AllocError>
        requires within { place < length self.old.transcripts.items }
        requires least { 1 ≤ self.old.slice }
        requires used { is_used_at (play_of self.old) place ≡ true }
        ensures closed { OnOk result (IsClosedAt (play_of self.old) (play_of self.new) place) }
        ensures run { OnOk result (RunsBy self.old.slice self.old.host self.new.host) }
        ensures slice { self.new.slice ≡ self.old.slice }
    {
        self.collect(place)?;
        sessions::close(&mut self.host, self.transcripts[place].open_id());
        self.transcripts[place].close();
        Ok(())
    }

    /// Opens a session under a free name, or records that it was refused, and makes one round. Room
    /// for the transcript is taken first, so that no session is open without one.
    fn open(&mut self, name: u8) -> Result<(), AllocError>
        requires { 1 ≤ self.old.slice }
        ensures opened { OnOk result (IsOpenedUnder (play_of self.old) (play_of self.new) name) }
        ensures run { OnOk result (RunsBy self.old.slice self.old.host self.new.host) }
        ensures slice { self.new.slice ≡ self.old.slice }
    {
        self.transcripts.reserve(1)?;
        let id = sessions::open(&mut self.host)?;
        self.transcripts
            .push_reserved(Transcript::new(self.alloc, name, id));
        sessions::work_round(&mut self.host, self.slice)?;
        Ok(())
    }

    /// Plays `+A`; false if the name is in use.
    fn open_line(&mut self, name: u8) -> Result<bool, AllocError>
        requires { 1 ≤ self.old.slice }
        ensures done { Plays result (play_of self.old) (Open name) (play_of self.new) }
        ensures run { OnOk result (RunsBy self.old.slice self.old.host self.new.host) }
        ensures slice { self.new.slice ≡ self.old.slice }
    {
        if self.place_of(name) < self.transcripts.len() {
            return Ok(false);
        }
        self.open(name)?;
        Ok(true)
    }

    /// Plays `-A`; false if the name is not in use.
    fn close_line(&mut self, name: u8) -> Result<bool, AllocError>
        requires { 1 ≤ self.old.slice }
        ensures done { Plays result (play_of self.old) (Close name) (play_of self.new) }
        ensures run { OnOk result (RunsBy self.old.slice self.old.host self.new.host) }
        ensures slice { self.new.slice ≡ self.old.slice }
    {
        let place = self.place_of(name);
        if place >= self.transcripts.len() {
            return Ok(false);
        }
        self.close(place)?;
        Ok(true)
    }

    /// Plays `A text`; false if the name is not in use.
    fn send_line(&mut self, name: u8, text: &[u8]) -> Result<bool, AllocError>
        requires { 1 ≤ self.old.slice }
        ensures done { Plays result (play_of self.old) (Send name text.now) (play_of self.new) }
        ensures run { OnOk result (RunsBy self.old.slice self.old.host self.new.host) }
        ensures slice { self.new.slice ≡ self.old.slice }
    {
        let place = self.place_of(name);
        if place >= self.transcripts.len() {
            return Ok(false);
        }
        self.send(place, text)?;
        Ok(true)
    }

    /// Plays a line of the script; false if it is bad.
    pub fn play_line(&mut self, line: Line<'_>) -> Result<bool, AllocError>
        requires { 1 ≤ self.old.slice }
        ensures done { PlaysLine result (play_of self.old) (line_of line.entry) (play_of self.new) }
        ensures run { OnOk result (RunsBy self.old.slice self.old.host self.new.host) }
        ensures slice { self.new.slice ≡ self.old.slice }
    {
        match meaning(line) {
            ScriptLine::Empty => Ok(true),
            ScriptLine::Open(name) => self.open_line(name),
            ScriptLine::Close(name) => self.close_line(name),
            ScriptLine::Send(name, text) => self.send_line(name, text),
            ScriptLine::Bad => Ok(false),
        }
    }

    /// Makes rounds until nothing is pending, and returns the output of the whole script.
    pub fn finish(&mut self) -> Result<Vec<u8, A>, AllocError>
        requires { 1 ≤ self.old.slice }
        ensures whole { IfOk result (λ out. IsPlaybackOutput (play_of self.old) out.items) }
        ensures kept { OnOk result (KeepsPlayback (play_of self.old) (play_of self.new)) }
        ensures run { OnOk result (RunsBy self.old.slice self.old.host self.new.host) }
    {
        let mut out = Vec::new(self.alloc);
        for i in 0..self.transcripts.len() {
            self.collect(i)?;
            add_section(&mut out, &self.transcripts[i])?;
        }
        Ok(out)
    }
}
