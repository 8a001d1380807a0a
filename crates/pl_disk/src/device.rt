//! A store of two files as the program sees it: what a read gives, and what a crash may leave.
ghost use Rattle.std.specs.Prelude.{◌≡◌, ◌≤◌, ◌<◌, ◌+◌, ◌^◌, length, take, drop, IfOk, OnOk, OnErr, ◌++◌, ◌∷◌, []};
ghost use Rattle.pl_base.specs.Image.{Image, file, other};
ghost use Rattle.pl_disk.specs.Disk.{View, IsLawful, Calls, Keeps, Follows, TornAt, Only, Written, Says, with_attached};

use pl_base::Area;

/// The answer of every call that failed. The count of such failures rises with it.
#[derive(Clone, Copy, Debug, PartialEq, Eq)]
pub struct Failed;

/// A store of two files. Places and lengths are in bytes, and places count from 0. A call fails only
/// where the count of the disk's failures rose.
pub trait Disk {
    /// What is known of the store, of what was printed, and of the counts.
    ghost view: { Self → View };

    /// Takes the store of this name, before any other call. It changes no bytes. The name counts as
    /// given after an error too, but then no store is attached.
    fn attach(&mut self, store: &str) -> Result<(), Failed>
        ensures call { Calls (with_attached store.now (view self.old)) (view self.new) result }
        ensures attached { OnOk result (view self.new).is_attached }
        ensures images { (view self.old).told → Keeps (view self.old) (view self.new) };

    /// The length of a file in bytes.
    fn len(&mut self, area: Area) -> Result<u64, Failed>
        requires { (view self.old).is_attached }
        ensures call { Calls (view self.old) (view self.new) result }
        ensures bound { IfOk result (λ n. n < 2 ^ 63) }
        ensures images { (view self.old).told → Keeps (view self.old) (view self.new) }
        ensures is { (view self.old).told → IfOk result (λ n.
            n ≡ length (file area (view self.old).seen)) };

    /// Fills the buffer with the bytes from `at` on. The caller sees that the file is long enough.
    fn read_at(&mut self, area: Area, at: u64, into: &mut [u8]) -> Result<(), Failed>
        requires attached { (view self.old).is_attached }
        requires there { (view self.old).told →
            at + length into.old ≤ length (file area (view self.old).seen) }
        ensures call { Calls (view self.old) (view self.new) result }
        ensures images { (view self.old).told → Keeps (view self.old) (view self.new) }
        ensures bytes { (view self.old).told → OnOk result (
            into.new ≡ take (length into.old) (drop at (file area (view self.old).seen))) };

    /// Writes over what is there, and past the end. `at` is at most the length. Until a sync that
    /// succeeds, a crash may leave any bytes in the range, also after an error. The other file reads
    /// as before, also after an error.
    fn write_at(&mut self, area: Area, at: u64, bytes: &[u8]) -> Result<(), Failed>
        requires attached { (view self.old).is_attached }
        requires there { (view self.old).told → at ≤ length (file area (view self.old).seen) }
        ensures call { Calls (view self.old) (view self.new) result }
        ensures within { OnOk result (at + length bytes.now < 2 ^ 63) }
        ensures written { (view self.old).told → OnOk result (
            Written area at bytes.now (view self.old).seen (view self.new).seen) }
        ensures rest { (view self.old).told →
            file (other area) (view self.new).seen ≡ file (other area) (view self.old).seen }
        ensures synced { (view self.old).told → (view self.new).synced ≡ (view self.old).synced }
        ensures crash { (view self.old).told → Follows (TornAt area at (length bytes.now))
            (view self.old).may_leave (view self.new).may_leave };

    /// Settles both files: after Ok a crash leaves what a read gives. After an error nothing is settled.
    fn sync(&mut self) -> Result<(), Failed>
        requires { (view self.old).is_attached }
        ensures call { Calls (view self.old) (view self.new) result }
        ensures seen { (view self.old).told → (view self.new).seen ≡ (view self.old).seen }
        ensures settled { (view self.old).told → OnOk result (
            (view self.new).synced ≡ (view self.old).synced ++ (view self.new).moment ∷ []) }
        ensures unsettled { (view self.old).told → OnErr result (
            (view self.new).synced ≡ (view self.old).synced) }
        ensures durable { (view self.old).told → OnOk result (
            Only (view self.old).seen (view self.new).may_leave) }
        ensures crash { (view self.old).told → (c : Image)
            → (view self.new).may_leave c → (view self.old).may_leave c };

    /// A disk as it reads is one of its images, this moment is one of those since an earlier one, and
    /// since it there is no other.
    ghost lawful: { (disk : Self) → (view disk).told → IsLawful (view disk) };
}

/// A store and the output.
pub trait Host: Disk {
    /// Prints a text, or after an error a front of it. It fails only where the count of failures to
    /// print rose.
    fn say(&mut self, text: &[u8]) -> Result<(), Failed>
        ensures { Says text.now (Self.view self.old) (Self.view self.new) result };
}
