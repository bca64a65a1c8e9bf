// An open file, as the system has it.
ghost use Rattle.std.specs.Prelude.{◌≡◌, ◌≢◌, ◌+◌, ◌≤◌, ◌∷◌, [], true, IfOk, IfErr, OnOk, OnErr, is_err, length, take, drop};
ghost use Rattle.std.specs.IoError.{error_kind};
ghost use Rattle.std.specs.Option.{option_map};
ghost use Rattle.apron_base.specs.Counts.{Counts};
ghost use Rattle.journal_disk.specs.Disk.{Between, Does, Goes, IfExposed, IsDurable, IsThere, Same, Stays, Torn, with_piece_at};
ghost use Rattle.journal_disk.specs.Disk.DoneCall.{DoneWrite, DoneSync};
ghost use Rattle.system_files.specs.Files.{FileState, IfTold, Lock, MayBeWritten, OnlyReads, is_early_end, is_without_syncs, lock_after, lock_beside};

use std::fs::TryLockError;
use std::io;

/// An open file: the system's, or one that a test makes. Each method is one call of the system.
pub trait RawFile {
    /// What it reads as, if it exposes that, and what a crash may leave; the writes and the syncs
    /// that were done; how many calls have failed; its lock; and the lock that others have.
    ghost state: { Self → FileState };

    /// Takes a lock that excludes all other processes. It doesn't wait for it.
    fn try_lock(&mut self) -> Result<(), TryLockError>
        ensures disk { Stays (state self.old).disk (state self.new).disk }
        ensures done { (state self.new).disk.done ≡ (state self.old).disk.done }
        ensures lock { IfTold (state self.new)
            ((state self.new).lock ≡ lock_after Lock.Exclusive result) }
        ensures beside { IfTold (state self.old) (lock_after Lock.Exclusive result
            ≡ lock_beside Lock.Exclusive (state self.old).others) };

    /// Takes a lock that other readers may have too. It doesn't wait for it.
    fn try_lock_shared(&mut self) -> Result<(), TryLockError>
        ensures disk { Stays (state self.old).disk (state self.new).disk }
        ensures done { (state self.new).disk.done ≡ (state self.old).disk.done }
        ensures lock { IfTold (state self.new)
            ((state self.new).lock ≡ lock_after Lock.Shared result) }
        ensures beside { IfTold (state self.old) (lock_after Lock.Shared result
            ≡ lock_beside Lock.Shared (state self.old).others) };

    /// How many bytes there are.
    fn length(&mut self) -> io::Result<u64>
        ensures length { IfOk result
            (λ size. IfExposed (state self.old).disk (λ bytes. size ≡ length bytes)) }
        ensures done { OnOk result
            ((state self.new).disk.done ≡ (state self.old).disk.done) }
        ensures reads { OnlyReads (is_err result) (state self.old) (state self.new) };

    /// Fills `into` with the bytes from `at` on. The range is inside the file. If the file ends
    /// early, the call did nothing.
    fn read_exact_at(&mut self, into: &mut [u8], at: u64) -> io::Result<()>
        requires inside { IfExposed (state self.old).disk
            (λ bytes. at + length into.old ≤ length bytes) }
        ensures read { OnOk result (IfExposed (state self.old).disk
            (λ bytes. into.new ≡ take (length into.old) (drop at bytes))) }
        ensures done { OnOk result
            ((state self.new).disk.done ≡ (state self.old).disk.done) }
        ensures early { IfErr result (λ cause. is_early_end (error_kind cause) ≡ true
            → (state self.new).disk.done ≡ (state self.old).disk.done) }
        ensures reads { OnlyReads (is_err result) (state self.old) (state self.new) };

    /// Whether it is still the file at its path.
    fn is_at_path(&mut self) -> io::Result<bool>
        ensures found { IfOk result (λ found. IfTold (state self.new)
            ((state self.new).found ≡ found)) }
        ensures done { OnOk result
            ((state self.new).disk.done ≡ (state self.old).disk.done) }
        ensures reads { OnlyReads (is_err result) (state self.old) (state self.new) };

    /// Writes the piece at `at`, over what is there and past the end. Nobody else may have the
    /// file, and the call before this found it at its path. Bytes that are safely there already,
    /// and are written again, stay, even if it fails.
    fn write_all_at(&mut self, piece: &[u8], at: u64) -> io::Result<()>
        requires inside { IfExposed (state self.old).disk (λ bytes. at ≤ length bytes) }
        requires ours { IfTold (state self.old) (MayBeWritten (state self.old)) }
        ensures written { OnOk result ((state self.new).disk.contents
            ≡ option_map (with_piece_at at piece.now) (state self.old).disk.contents) }
        ensures torn { OnErr result (Between (Torn at (length piece.now))
            (state self.old).disk.contents (state self.new).disk.contents) }
        ensures crash { Goes (Torn at (length piece.now))
            (state self.old).disk (state self.new).disk }
        ensures again { IsThere at piece.now (state self.old).disk
            → Goes Same (state self.old).disk (state self.new).disk }
        ensures done { OnOk result (Does (DoneWrite at (length piece.now) ∷ [])
            (state self.old).disk (state self.new).disk) }
        ensures lock { (state self.new).lock ≡ (state self.old).lock }
        ensures counts { IfTold (state self.old) (Counts (is_err result)
            (state self.old).disk.faults (state self.new).disk.faults) };

    /// Syncs the bytes and the length. If nobody writes the file here, and there are no syncs,
    /// there was nothing to sync, and that counts as a sync that was done.
    fn sync_data(&mut self) -> io::Result<()>
        ensures durable { OnOk result (IsDurable (state self.old).disk (state self.new).disk) }
        ensures done { OnOk result
            (Does (DoneSync ∷ []) (state self.old).disk (state self.new).disk) }
        ensures needless { IfErr result (λ cause. is_without_syncs (error_kind cause) ≡ true
            → (state self.old).lock ≢ Lock.Exclusive
            → IsDurable (state self.old).disk (state self.new).disk
            × Does (DoneSync ∷ []) (state self.old).disk (state self.new).disk) }
        ensures reads { OnlyReads (is_err result) (state self.old) (state self.new) };

    /// The same, and all else that the system has of the file.
    fn sync_all(&mut self) -> io::Result<()>
        ensures durable { OnOk result (IsDurable (state self.old).disk (state self.new).disk) }
        ensures done { OnOk result
            (Does (DoneSync ∷ []) (state self.old).disk (state self.new).disk) }
        ensures reads { OnlyReads (is_err result) (state self.old) (state self.new) };

    /// Syncs its folder, so that a crash leaves a file at its path.
    fn sync_folder(&mut self) -> io::Result<()>
        ensures lasting { OnOk result (IfTold (state self.new) ((state self.new).lasting ≡ true)) }
        ensures done { OnOk result
            ((state self.new).disk.done ≡ (state self.old).disk.done) }
        ensures reads { OnlyReads (is_err result) (state self.old) (state self.new) };

    /// What it reads as is one of the images that a crash now may leave.
    ghost reads: { (file : Self)
        → IfExposed (state file).disk ((state file).disk.images (state file).disk.moment) };
}
