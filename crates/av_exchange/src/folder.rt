//! A folder, as an exchange sees it.
ghost use Rattle.std.specs.Prelude.{◌≡◌, ◌∷◌, [], Contains, IfOk, List, OnErr, OnOk, Option, is_some, map, option_map, string_bytes, ℕ};
ghost use Rattle.av_exchange.specs.Marks.{Marking};
ghost use Rattle.av_exchange.specs.Steps.{History, IfTold, MayHaveTaken, Moved, Removed, Spoiled, Synced, Written, with_steps};

use std::alloc::Global;
use std::io;

/// A folder whose files are written, moved and taken away by their names. Each call is one step, which was taken or was not. That those of
/// the system's folders are such steps no clause can say.
pub trait Folder {
    /// What it held at first and the steps since, where it can tell: a folder in memory can, one of the system can not.
    ghost history: { Self → Option History };

    /// In clauses: the mark of a file with these bytes, where it can tell its history.
    ghost mark_of: { Self → Marking };

    /// Writes a file of a name that is free, all of it up to the device. It gets the owner and the rights of the file named `like`,
    /// where there is one.
    fn write_new(&mut self, name: &str, bytes: &[u8], like: &str) -> io::Result<()>
        ensures ok { OnOk result (history self.new
            ≡ with_steps (history self.old) (Written name.now bytes.now ∷ [])) }
        ensures err { OnErr result ((left : Option (List ℕ))
            × (history self.new ≡ with_steps (history self.old) (Spoiled name.now left ∷ []))) };

    /// Lets a file take the name of another, which it replaces, and answers whether it was there. A device may answer an error where it is done.
    fn move_over(&mut self, from: &str, to: &str) -> io::Result<bool>
        ensures ok { OnOk result (history self.new
            ≡ with_steps (history self.old) (Moved from.now to.now ∷ [])) }
        ensures there { IfOk result (λ there. IfTold (history self.old)
            (λ h. there ≡ is_some (h from.now))) }
        ensures err { OnErr result (MayHaveTaken (Moved from.now to.now) (history self.old)
            (history self.new)) };

    /// Takes a file away, where it is there.
    fn remove(&mut self, name: &str) -> io::Result<()>
        ensures ok { OnOk result (history self.new
            ≡ with_steps (history self.old) (Removed name.now ∷ [])) }
        ensures err { OnErr result (history self.new ≡ history self.old) };

    /// Waits until all names are on the device.
    fn sync(&mut self) -> io::Result<()>
        ensures ok { OnOk result (history self.new ≡ with_steps (history self.old) (Synced ∷ [])) }
        ensures err { OnErr result (history self.new ≡ history self.old) };

    /// Looks again whether its files may be replaced, as where another program has them open, or wrote them since they were read.
    fn look_again(&mut self) -> io::Result<()>
        ensures { history self.new ≡ history self.old };

    /// The text of a file, where it is there.
    fn read_text(&self, alloc: Global, name: &str) -> io::Result<Option<String>>
        ensures { IfOk result (λ text. IfTold (history self.now)
            (λ h. h name.now ≡ option_map string_bytes text)) };

    /// The mark of a file, by which it is known again until it is written, where it is there.
    fn mark(&self, alloc: Global, name: &str) -> io::Result<Option<String>>
        ensures { IfOk result (λ mark. IfTold (history self.now)
            (λ h. option_map string_bytes mark ≡ option_map (mark_of self.now) (h name.now))) };

    /// The names of all files.
    fn names(&self, alloc: Global) -> io::Result<Vec<String>>
        ensures { IfOk result (λ names. IfTold (history self.now) (λ h. (name bytes : List ℕ) → h name ≡ Some bytes
            → Contains (map string_bytes names.items) name)) };
}
