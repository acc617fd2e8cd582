// Real files and the real output: the trusted edge. No contract can say what they hold, so they tell nothing of it.
// A call that a signal interrupted is made anew: opening a file by std, reading and writing here.
ghost use Rattle.std.specs.Prelude.{◌≡◌, ◌+◌, ◌<◌, ◌≤◌, ◌^◌, [], None, length, vec_len, IfOk, IsTrue};
ghost use Rattle.std.specs.IoError.{error_kind};
ghost use Rattle.std.specs.Io.{ReadsAtMost, WritesAtMost};
ghost use Rattle.std.specs.Io.KnownBytes.{ReadConsumes, WriteAppends};
ghost use Rattle.cg_outside.specs.Failures.{times};
ghost use Rattle.cg_cli.specs.Loops.{told_as, ReadsTurn, ReadsFront, WritesWhole};

use cg_outside::{Failures, FileFault, Files, Sink};
use std::alloc::Global;
use std::io::{Error, ErrorKind, Read, Write};
use std::rt::Files as FileSystem;
use std::{fs, io};

/// How many bytes one turn of a read asks for at most.
const CHUNK: usize = 4096;

/// How often a call is made that signals interrupt; then it has failed.
const TRIES: u32 = 1000;

/// What an error of std's is where nothing has changed.
fn fault_of(error: &Error) -> FileFault
    ensures { result ≡ told_as (error_kind error.now) }
{
    if error.kind() == ErrorKind::OutOfMemory {
        FileFault::Memory
    } else {
        FileFault::Failed
    }
}

/// One call of a reader, made anew while it is interrupted.
fn read_some<R: Read>(reader: &mut R, buf: &mut [u8]) -> io::Result<usize>
    ensures bound { ReadsAtMost result buf.new }
    ensures bytes { ReadConsumes (R.remaining reader.old) (R.remaining reader.new) result buf.new }
{
    'tries: for _ in 0..TRIES {
        match reader.read(buf) {
            Err(error) if error.kind() == ErrorKind::Interrupted => {}
            answer => return answer,
        }
    }
    Err(Error::from(ErrorKind::Interrupted))
}

/// One call of a writer, made anew while it is interrupted.
fn write_some<W: Write>(writer: &mut W, bytes: &[u8]) -> io::Result<usize>
    ensures bound { WritesAtMost result bytes.now }
    ensures bytes { WriteAppends (W.contents writer.old) (W.contents writer.new) result bytes.now }
{
    'tries: for _ in 0..TRIES {
        match writer.write(bytes) {
            Err(error) if error.kind() == ErrorKind::Interrupted => {}
            answer => return answer,
        }
    }
    Err(Error::from(ErrorKind::Interrupted))
}

/// One turn of a read: appends what the reader gives, at most `room` bytes, and answers how many these are. None is the
/// end of what it has.
fn read_turn<R: Read>(reader: &mut R, bytes: &mut Vec<u8>, room: usize) -> Result<usize, FileFault>
    requires { 0 < room }
    ensures { ReadsTurn room (R.remaining reader.old) (R.remaining reader.new) bytes.old.items bytes.new.items result }
{
    let mut chunk = [0u8; CHUNK];
    match read_some(reader, &mut chunk[..CHUNK.min(room)]) {
        Ok(count) => {
            bytes.extend_from_slice(&chunk[..count])?;
            Ok(count)
        }
        Err(error) => Err(fault_of(&error)),
    }
}

/// All bytes that a reader gives, or the first `most + 1` of them. Where it can't, the reader has lost what was read.
fn read_front<R: Read>(alloc: Global, reader: &mut R, most: usize) -> Result<Vec<u8>, FileFault>
    requires { most < 2 ^ 32 }
    ensures { ReadsFront most (R.remaining reader.old) (R.remaining reader.new) result }
{
    let mut bytes = Vec::new(alloc);
    'turns: while bytes.len() <= most {
        let room = most + 1 - bytes.len();
        if read_turn(reader, &mut bytes, room)? == 0 {
            return Ok(bytes);
        }
    }
    Ok(bytes)
}

/// Writes all the bytes. A turn that takes none has failed, and want of memory is told as such only before the first
/// byte was taken.
fn write_whole<W: Write>(writer: &mut W, bytes: &[u8]) -> Result<(), FileFault>
    ensures { WritesWhole bytes.now (W.contents writer.old) (W.contents writer.new) result }
{
    let mut at = 0;
    while at < bytes.len() {
        match write_some(writer, &bytes[at..]) {
            Ok(0) => return Err(FileFault::Failed),
            Ok(count) => at += count,
            Err(error) if at == 0 => return Err(fault_of(&error)),
            Err(_) => return Err(FileFault::Failed),
        }
    }
    Ok(())
}

/// Files of the system, with the names of the calls that failed. It implements docs/LANGUAGE.md, "The outside".
///
/// Names are compared as texts: `a.cg` and `./a.cg`, or two links to one file, are two names, and what is written to one
/// is read from the other. A file that can't be opened for writing keeps what it held, which needn't be a prefix of the
/// bytes: the system empties a file only where it opens it. Closing a file reports nothing, so an error that the system
/// has only then is lost. Nothing is synced: the system has taken what was written, and can lose it where it stops.
#[derive(Drop)]
pub struct RealFiles<'a, R: FileSystem> {
    alloc: Global,
    system: &'a R,
    reads: Failures,
    writes: Failures,
}

impl<'a, R: FileSystem> RealFiles<'a, R> {
    /// The files that a system reaches; no call has failed.
    pub fn new(alloc: Global, system: &'a R) -> RealFiles<'a, R>
        ensures reads { result.reads ≡ [] }
        ensures writes { result.writes ≡ [] }
    {
        RealFiles {
            alloc,
            system,
            reads: Failures::new(alloc),
            writes: Failures::new(alloc),
        }
    }
}

/// The front of a file.
fn read_file<R: FileSystem>(
    system: &R,
    alloc: Global,
    name: &str,
    most: usize,
) -> Result<Vec<u8>, FileFault>
    requires { most < 2 ^ 32 }
    ensures { IfOk result (λ bytes. length bytes.items ≤ most + 1) }
{
    match fs::open(system, name) {
        Ok(mut file) => read_front(alloc, &mut file, most),
        Err(error) => Err(fault_of(&error)),
    }
}

/// Makes a file's contents these bytes. One call of the system opens the file and makes or empties it, so one that can't
/// be opened keeps what it held. Once it is made or emptied, whatever stops the write is a failure.
fn write_file<R: FileSystem>(system: &R, name: &str, bytes: &[u8]) -> Result<(), FileFault> {
    match fs::create(system, name) {
        Ok(mut file) => write_whole(&mut file, bytes).map_err(|_| FileFault::Failed),
        Err(error) => Err(fault_of(&error)),
    }
}

impl<'a, R: FileSystem> Files for RealFiles<'a, R> {
    ghost held = { λ _. None };

    ghost failed_reads = { λ f. times f.reads };

    ghost failed_writes = { λ f. times f.writes };

    fn read(&mut self, alloc: Global, name: &str, most: usize) -> Result<Vec<u8>, FileFault> {
        self.reads.note(self.alloc, name)?;
        let read = read_file(self.system, alloc, name, most);
        if let Err(FileFault::Failed) = read {
            return Err(FileFault::Failed);
        }
        self.reads.take_back();
        read
    }

    fn write(&mut self, name: &str, bytes: &[u8]) -> Result<(), FileFault> {
        self.writes.note(self.alloc, name)?;
        let written = write_file(self.system, name, bytes);
        if let Err(FileFault::Failed) = written {
            return Err(FileFault::Failed);
        }
        self.writes.take_back();
        written
    }
}

/// Standard output, with the count of its faults. It is neither closed nor synced here, so an error that the system has
/// only then is lost.
#[derive(Drop)]
pub struct RealOutput<'a, P: Print> {
    system: &'a P,
    faults: u64,
}

impl<'a, P: Print> RealOutput<'a, P> {
    /// The output that a system prints to; no call has failed.
    pub fn new(system: &'a P) -> RealOutput<'a, P>
        ensures { result.faults ≡ 0 }
    {
        RealOutput { system, faults: 0 }
    }
}

impl<'a, P: Print> Sink for RealOutput<'a, P> {
    ghost taken = { λ _. None };

    ghost faults = { λ o. o.faults };

    fn write(&mut self, bytes: &[u8]) -> Result<(), FileFault> {
        let written = write_whole(&mut io::writer(self.system), bytes);
        if written == Err(FileFault::Failed) {
            self.faults = self.faults.saturating_add(1);
        }
        written
    }
}

#[cfg(test)]
mod tests {
    use super::*;
    use std::fmt::Display;
    use std::test::Fail;

    /// So many bytes. The chunks that a read asks for differ.
    fn pattern(alloc: Global, count: usize) -> Result<Vec<u8>, FileFault> {
        let mut bytes = Vec::new(alloc);
        for i in 0..count {
            bytes.push((i % 251) as u8)?;
        }
        Ok(bytes)
    }

    /// A writer that takes few bytes a turn, and whose memory is wanting after so many turns.
    #[derive(Drop)]
    struct Sips {
        taken: Vec<u8>,
        turns: usize,
    }

    impl Write for Sips {
        fn write(&mut self, buf: &[u8]) -> io::Result<usize> {
            if self.turns == 0 {
                return Err(Error::from(ErrorKind::OutOfMemory));
            }
            self.turns -= 1;
            let count = buf.len().min(7);
            self.taken.extend_from_slice(&buf[..count])?;
            Ok(count)
        }

        fn flush(&mut self) -> io::Result<()> {
            Ok(())
        }
    }

    /// A reader and a writer that are interrupted so often before each turn; one of a write takes few bytes.
    #[derive(Drop)]
    struct Disturbed {
        bytes: Vec<u8>,
        at: usize,
        before_each: u32,
        left: u32,
    }

    impl Disturbed {
        fn new(bytes: Vec<u8>, before_each: u32) -> Disturbed {
            Disturbed {
                bytes,
                at: 0,
                before_each,
                left: before_each,
            }
        }

        /// Whether the next call is interrupted.
        fn is_interrupted(&mut self) -> bool {
            if self.left == 0 {
                self.left = self.before_each;
                return false;
            }
            self.left -= 1;
            true
        }
    }

    impl Read for Disturbed {
        fn read(&mut self, buf: &mut [u8]) -> io::Result<usize> {
            if self.is_interrupted() {
                return Err(Error::from(ErrorKind::Interrupted));
            }
            let mut rest = self.bytes.get(self.at..).unwrap_or(&[]);
            let count = rest.read(buf)?;
            self.at = self.at.saturating_add(count);
            Ok(count)
        }
    }

    impl Write for Disturbed {
        fn write(&mut self, buf: &[u8]) -> io::Result<usize> {
            if self.is_interrupted() {
                return Err(Error::from(ErrorKind::Interrupted));
            }
            let count = buf.len().min(7);
            self.bytes.extend_from_slice(&buf[..count])?;
            Ok(count)
        }

        fn flush(&mut self) -> io::Result<()> {
            Ok(())
        }
    }

    /// A system that prints nothing.
    #[derive(Drop)]
    struct Broken(ErrorKind);

    impl Print for Broken {
        fn print<D: Display + Drop>(&self, _value: D) -> io::Result<()> {
            Err(Error::from(self.0))
        }

        fn println<D: Display + Drop>(&self, _value: D) -> io::Result<()> {
            Err(Error::from(self.0))
        }

        fn write_all(&self, _bytes: &[u8]) -> io::Result<()> {
            Err(Error::from(self.0))
        }
    }

    /// Whether a write of a name fails; the count of its failed writes is then one more.
    fn write_fails<F: Files>(files: &mut F, name: &str) -> bool
        ensures { IsTrue result → F.failed_writes files.new name.now ≡ F.failed_writes files.old name.now + 1 }
    {
        matches!(files.write(name, b"one two three"), Err(FileFault::Failed))
    }

    /// Whether a read of a name fails; the count of its failed reads is then one more.
    fn read_fails<F: Files>(alloc: Global, files: &mut F, name: &str) -> bool
        ensures { IsTrue result → F.failed_reads files.new name.now ≡ F.failed_reads files.old name.now + 1 }
    {
        matches!(files.read(alloc, name, 100), Err(FileFault::Failed))
    }

    /// Whether a read of a name gives just these bytes.
    fn reads<F: Files>(alloc: Global, files: &mut F, name: &str, most: usize, bytes: &[u8]) -> bool
        requires { most < 2 ^ 32 }
    {
        match files.read(alloc, name, most) {
            Ok(read) => read.as_slice() == bytes,
            Err(_) => false,
        }
    }

    /// Takes away the leave to write a file.
    fn lock<R: FileSystem>(system: &R, name: &str) -> io::Result<()> {
        let mut permissions = fs::metadata(system, name)?.permissions();
        permissions.set_readonly(true);
        fs::set_permissions(system, name, permissions)
    }

    /// A piece of more than one turn of what is disturbed.
    const PIECE: &[u8] = b"one two three";

    /// Whether a piece is written that is interrupted so often before each turn.
    fn writes_disturbed(alloc: Global, before_each: u32) -> bool {
        let mut writer = Disturbed::new(Vec::new(alloc), before_each);
        write_whole(&mut writer, PIECE) == Ok(()) && writer.bytes.as_slice() == PIECE
    }

    /// Whether a piece is read that is interrupted so often before each turn.
    fn reads_disturbed(alloc: Global, before_each: u32) -> Result<bool, FileFault> {
        let mut reader = Disturbed::new(PIECE.to_vec(alloc)?, before_each);
        match read_front(alloc, &mut reader, 100) {
            Ok(bytes) => Ok(bytes.as_slice() == PIECE),
            Err(_) => Ok(false),
        }
    }

    /// Whether a writer of so many turns takes just these bytes of a piece, with this answer.
    fn takes(piece: &[u8], turns: usize, taken: Vec<u8>, answer: Result<(), FileFault>) -> bool {
        let mut sips = Sips {
            taken: Vec::new(*taken.allocator()),
            turns,
        };
        write_whole(&mut sips, piece) == answer && sips.taken == taken
    }

    #[test]
    fn real_files_read_what_was_written(rt: HostRuntime) -> Result<(), Fail> {
        let alloc = rt.alloc();
        let bytes = pattern(alloc, 10_000)?;
        let front = pattern(alloc, 5_001)?;
        let mut files = RealFiles::new(alloc, &rt);
        files.write("real.bin", &bytes)?;
        assert!(rt; reads(alloc, &mut files, "real.bin", 10_000, &bytes));
        assert!(rt; reads(alloc, &mut files, "real.bin", 5_000, &front));
        files.write("real.bin", &front)?;
        assert!(rt; reads(alloc, &mut files, "real.bin", 10_000, &front));
        Ok(())
    }

    #[test]
    fn real_files_fail_where_the_system_does(rt: HostRuntime) {
        let alloc = rt.alloc();
        let mut files = RealFiles::new(alloc, &rt);
        assert!(rt; write_fails(&mut files, "/dev/full"));
        assert!(rt; write_fails(&mut files, "absent/real.bin"));
        assert!(rt; read_fails(alloc, &mut files, "absent.bin"));
        // A directory can be opened and not read.
        assert!(rt; read_fails(alloc, &mut files, "."));
    }

    #[test]
    fn a_file_keeps_what_it_held_where_a_name_below_it_is_written(
        rt: HostRuntime,
    ) -> Result<(), Fail> {
        let alloc = rt.alloc();
        let mut files = RealFiles::new(alloc, &rt);
        files.write("kept.bin", b"kept")?;
        assert!(rt; write_fails(&mut files, "kept.bin/below"));
        assert!(rt; reads(alloc, &mut files, "kept.bin", 100, b"kept"));
        Ok(())
    }

    #[test]
    fn a_file_that_may_not_be_written_keeps_what_it_held(rt: HostRuntime) -> Result<(), Fail> {
        let alloc = rt.alloc();
        let mut files = RealFiles::new(alloc, &rt);
        files.write("locked.bin", b"kept")?;
        lock(&rt, "locked.bin")?;
        // Who may write every file isn't refused.
        let refused = write_fails(&mut files, "locked.bin");
        assert!(rt; !refused || reads(alloc, &mut files, "locked.bin", 100, b"kept"));
        fs::remove_file(&rt, "locked.bin")?;
        Ok(())
    }

    #[test]
    fn what_is_interrupted_is_tried_again(rt: HostRuntime) -> Result<(), Fail> {
        let alloc = rt.alloc();
        assert!(rt; writes_disturbed(alloc, TRIES - 1));
        assert!(rt; !writes_disturbed(alloc, TRIES));
        assert!(rt; reads_disturbed(alloc, TRIES - 1)?);
        assert!(rt; !reads_disturbed(alloc, TRIES)?);
        Ok(())
    }

    #[test]
    fn a_piece_is_written_in_turns(rt: HostRuntime) -> Result<(), Fail> {
        let alloc = rt.alloc();
        let bytes = pattern(alloc, 10_000)?;
        assert!(rt; takes(&bytes, 10_000, pattern(alloc, 10_000)?, Ok(())));
        assert!(rt; takes(&bytes, 3, pattern(alloc, 21)?, Err(FileFault::Failed)));
        assert!(rt; takes(&bytes, 0, Vec::new(alloc), Err(FileFault::Memory)));
        let full = write_whole(&mut [0u8; 100].as_mut_slice(), &bytes);
        assert_eq!(rt; full, Err(FileFault::Failed));
        Ok(())
    }

    #[test]
    fn real_output_takes_bytes(rt: HostRuntime) -> Result<(), Fail> {
        let mut out = RealOutput::new(&rt);
        out.write(b"printed\n")?;
        assert_eq!(rt; out.faults, 0);
        Ok(())
    }

    #[test]
    fn real_output_counts_its_faults(rt: HostRuntime) {
        for (kind, answer, faults) in [
            (ErrorKind::StorageFull, FileFault::Failed, 1),
            (ErrorKind::OutOfMemory, FileFault::Memory, 0),
        ] {
            let broken = Broken(kind);
            let mut out = RealOutput::new(&broken);
            assert_eq!(rt; out.write(b"lost"), Err(answer));
            assert_eq!(rt; out.faults, faults);
        }
    }
}
