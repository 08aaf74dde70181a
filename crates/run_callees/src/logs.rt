//! Log calls: the arguments are formed, the text is printed, and the answer is how many bytes it has.
ghost use Rattle.std.specs.Prelude.{◌≡◌, ◌+◌, ◌<◌, ◌^◌, map, drop, Some, OnOk, IfOk};
ghost use Rattle.c_machine.specs.Worth.{worth};
ghost use Rattle.c_means.specs.Calls.{pointers_in};
ghost use Rattle.core_running.specs.Frames.{env_of};
ghost use Rattle.core_running.specs.Running.{done};
ghost use Rattle.core_tree.specs.Callees as callees;
ghost use Rattle.core_tree.specs.States.{plain, meets};
ghost use Rattle.printf_text.specs.Texts.{text_of};
ghost use Rattle.run_callees.specs.Levels.{level_of};
ghost use Rattle.run_callees.specs.Printing.{print_text};

use crate::answers::{answer_count, meet_all, note_print, print, stop};
use crate::arguments::{arguments, places_in};
use crate::spoken::behind;
use crate::watched::push_seen;
use c_machine::{Machine, Value};
use core_running::Frame;
use core_tree::{ValueType, Watched, WordType};
use plain_data::{Bytes, Numbers, Undefined};
use printf_text::{Args, Pieces, have_kinds, kinds, text};
use std::alloc::{AllocError, Global};

/// The text of pieces. It fails for want of memory alone: an accepted format has an argument for each `*`.
fn text_with(alloc: Global, pieces: &Pieces, args: &Args) -> Result<Bytes, AllocError>
    ensures { IfOk result (λ bytes. bytes ≡ text_of pieces.now args.now) }
{
    let wanted = kinds(alloc, pieces)?;
    if !have_kinds(&wanted, args) {
        return Err(AllocError);
    }
    match text(alloc, pieces, args) {
        Ok(bytes) => Ok(bytes),
        Err(_) => Err(AllocError),
    }
}

/// A log call: the token of the callee's name, the type of the call, the pieces of its format, how many arguments stand
/// before those of the format, the integer types of all, and the variables that are shown.
#[derive(Clone, Copy)]
pub(crate) struct LogCall<'a> {
    pub(crate) alloc: Global,
    pub(crate) at: u32,
    pub(crate) to: ValueType,
    pub(crate) pieces: &'a Pieces,
    pub(crate) before: u64,
    pub(crate) types: &'a [WordType],
    pub(crate) watched: &'a [Watched],
}

impl<'a> LogCall<'a> {
    /// The values of the variables that are shown. It fails for want of memory alone.
    fn shown(&self, frame: &Frame, m: &mut Machine) -> Result<Numbers, AllocError>
        ensures world { m.new.world ≡ m.old.world }
        ensures same { OnOk result (done m.new ≡ done m.old) }
        ensures shown { IfOk result (λ shown. shown ≡ callees.seen_all (env_of frame.now) (done m.old).store self.now.watched.now) }
    {
        let mut shown = Numbers::new(self.alloc);
        push_seen(&mut shown, self.watched, frame, m)?;
        Ok(shown)
    }

    /// The arguments of the format: nothing where a text has a byte that is of no live object. It fails for want of
    /// memory alone.
    fn formed(&self, values: &[Value], place: u64, m: &Machine) -> Result<Option<Args>, AllocError>
        requires { place + (4 + pointers_in self.now.pieces.now) < 2 ^ 63 }
        ensures { IfOk result (λ args. args ≡ callees.arguments_of (level_of m.now.world) self.now.pieces.now
            (drop self.now.before (callees.spoken self.now.types.now (map worth values.now))) (place + 4) (done m.now).store) }
    {
        let (types, values) = behind(self.before, self.types, values);
        let args = arguments(
            self.alloc,
            self.pieces.as_slice(),
            types,
            values,
            place + 4,
            m,
        )?;
        Ok(args)
    }

    /// Meets the places of the format. It fails for want of memory alone.
    fn meet_places(&self, place: u64, m: &mut Machine) -> Result<(), AllocError>
        requires { place + (4 + pointers_in self.now.pieces.now) < 2 ^ 63 }
        ensures world { m.new.world ≡ m.old.world }
        ensures meets { OnOk result (done m.new ≡ meets plain (place + 4) (pointers_in self.now.pieces.now) (done m.old)) }
    {
        meet_all(place + 4, places_in(self.pieces.as_slice()), m)?;
        Ok(())
    }

    /// Prints the text of formed arguments. It fails for want of memory alone.
    fn print(&self, args: &Args, shown: Numbers, m: &mut Machine) -> Result<(), AllocError>
        ensures world { m.new.world ≡ m.old.world }
        ensures prints { OnOk result (done m.new ≡ print_text self.now.at self.now.to shown (text_of self.now.pieces.now args.now) (done m.old)) }
    {
        let text = text_with(self.alloc, self.pieces, args)?;
        let length = text.len() as u64;
        note_print(self.at, length, shown, m)?;
        print(text, m)?;
        answer_count(self.to, length, m);
        Ok(())
    }

    /// The whole call, whose first place this is. It fails for want of memory alone.
    #[tactic(auto, using(crate::proofs::Printing::call_stopped))]
    pub(crate) fn call(
        &self,
        frame: &Frame,
        values: &[Value],
        place: u64,
        m: &mut Machine,
    ) -> Result<(), AllocError>
        requires { place + (4 + pointers_in self.now.pieces.now) < 2 ^ 63 }
        ensures world { m.new.world ≡ m.old.world }
        ensures runs { OnOk result (callees.log_call (level_of m.old.world) self.now.at self.now.to self.now.pieces.now self.now.before
            self.now.types.now self.now.watched.now (env_of frame.now) (map worth values.now) place (done m.old) ≡ Some (done m.new)) }
    {
        let args = self.formed(values, place, m)?;
        let shown = self.shown(frame, m)?;
        self.meet_places(place, m)?;
        match args {
            Some(args) => {
                self.print(&args, shown, m)?;
                Ok(())
            }
            None => {
                stop(self.at, Undefined::Dereference, m);
                Ok(())
            }
        }
    }
}
