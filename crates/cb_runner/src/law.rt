// Laws of the answer, each in one fact.
ghost use Rattle.std.specs.Prelude.{◌≡◌, ◌⊎◌, ◌↔◌, ℕ, ◌+◌, ◌<◌, ◌≤◌, List, [], length, Option, None, Some};
ghost use Rattle.std.specs.FinMap.{get};
ghost use Rattle.cb_io.specs.Folder.{Files};
ghost use Rattle.cb_link.specs.Program.{Linked};
ghost use Rattle.cb_link.specs.declared.refusal.Refusal.{Refusal as LinkRefusal};
ghost use Rattle.cb_load.specs.Loading.{AreLoaded, StopsFor};
ghost use Rattle.cb_machine.specs.Machine.{Machine};
ghost use Rattle.cb_machine.specs.Runs.{at};
ghost use Rattle.cb_plain.specs.State.{State};
ghost use Rattle.cb_asm.specs.Answers.{StopsAt};
ghost use Rattle.cb_asm_list.specs.Listing.{listing};
ghost use Rattle.cb_asm_record.specs.Grammar.{Assembles};
ghost use Rattle.cb_classfile.specs.Answers.{HasNoOtherVersion, SpellsNone};
ghost use Rattle.cb_classfile.specs.Class.{HasVersion, IsAccepted, class_bytes};
ghost use Rattle.cb_classfile.specs.declared.class.ClassFile.{ClassFile};
ghost use Rattle.cb_classfile.specs.declared.feature.Feature.{Feature};
ghost use Rattle.cb_runner.specs.Answer.{Answers, Ends, EndsIn, IsWhole};
ghost use Rattle.cb_runner.specs.Asm.{text_limit};
ghost use Rattle.cb_runner.specs.Ending.{Ending, refused, returned};
ghost use Rattle.cb_runner.specs.List.{IsListed, LeavesOut};
ghost use Rattle.cb_runner.specs.Messages.{Reason, MissingClass, Malformed, BadVersion, Unsupported, TooLarge, BadLine};
ghost use Rattle.cb_runner.specs.Run.{AreNoProgram, AreProgram, AreTyped, AreUntyped, IsRunnable, file_limit, reason_of_linking};
ghost use Rattle.cb_act.specs.Turning.{Moment};
ghost use Rattle.cb_collector.specs.Known.{Known};
ghost use Rattle.cb_runner.specs.Running.{ComesTo, ComesToTold, EndsRun, Reaches, config_of, machine_of, start_of};
ghost use Rattle.cb_runner.specs.Words.{Assemble, Command, ListOf, Run, RunIn, Says, SaysNone};
ghost use Rattle.cb_runner.specs.declared.cause.Cause.TheVariants as causes;
ghost use Rattle.cb_link.specs.declared.refusal.Quantity.TheVariants.{ClassFileBytes, AssemblyBytes};

use cb_beside::{ends_alike, leaves_unread, reads_a_front, requests_alike};
use cb_classfile::one_class;
use cb_io::Source;
use cb_link::one_judgement;
use cb_load::one_loading;

/// Words say one command at most: one folder or path, and of a run one class, one budget, one limit of frames, one number of blocks and one list of arguments.
pub fn one_command()
    ensures { (words : List (List ℕ)) (one other : Command) → Says words one → Says words other → one ≡ other }
{}

/// A call ends as one whose words are no command exactly where its words say none.
pub fn usage_exactly<I: Source>()
    ensures { (words : List (List ℕ)) (files : Option Files) (first last : I) (ending : Ending)
        → Ends I.left I.gave words files first last ending → (ending.cause ≡ causes.Usage) ↔ SaysNone words }
{}

/// A command returns or is refused, or its program ends in another way, exactly where nothing cuts it short.
pub fn whole_exactly<I: Source>()
    ensures { (command : Command) (files : Option Files) (first last : I) (ending : Ending)
        → EndsIn I.left I.gave command files first last ending → IsWhole ending ↔ Answers I.left I.gave command files first last ending }
{}

/// A command that is refused has printed nothing, and read nothing from the input unless it is `asm`. This is said of every
/// folder, also of one that doesn't tell its files.
pub fn refused_silently<I: Source>()
    ensures { (command : Command) (files : Option Files) (first last : I) (ending : Ending)
        → EndsIn I.left I.gave command files first last ending → ending.cause ≡ causes.Refused → (ending.out ≡ []) × ((ending.read ≡ 0) ⊎ (command ≡ Assemble)) }
{}

/// A run that nothing cuts short, where the folder tells its files. It is refused for the reason for which loading its class
/// stops, where that stops. Where its classes are loaded, it is refused for the reason for which they are no program. Where they
/// are one that isn't typed, it is refused for its first method that isn't and the least place of it that fails. Where they are one
/// that is typed, it ends as a run of their program does.
pub fn run_exactly<I: Source>()
    ensures unloaded { (folder : List ℕ) (run : Run) (files : Files) (first last : I) (ending : Ending)
        (refusal : LinkRefusal) (reason : Reason) → Answers I.left I.gave (RunIn folder run) (Some files) first last ending
        → StopsFor (Some files) folder run.main refusal → reason_of_linking refusal ≡ Some reason → ending ≡ refused reason 0 }
    ensures unlinked { (folder : List ℕ) (run : Run) (files : Files) (first last : I) (ending : Ending)
        (classes : List ClassFile) (refusal : LinkRefusal) (reason : Reason) → Answers I.left I.gave (RunIn folder run) (Some files) first last ending
        → AreLoaded (Some files) folder run.main classes → AreNoProgram classes run.main refusal → reason_of_linking refusal ≡ Some reason
        → ending ≡ refused reason 0 }
    ensures untyped { (folder : List ℕ) (run : Run) (files : Files) (first last : I) (ending : Ending)
        (classes : List ClassFile) (reason : Reason) → Answers I.left I.gave (RunIn folder run) (Some files) first last ending
        → AreLoaded (Some files) folder run.main classes → AreProgram classes run.main → AreUntyped classes run.main reason
        → ending ≡ refused reason 0 }
    ensures runs { (folder : List ℕ) (run : Run) (files : Files) (first last : I) (ending : Ending)
        (classes : List ClassFile) → Answers I.left I.gave (RunIn folder run) (Some files) first last ending
        → AreLoaded (Some files) folder run.main classes → AreProgram classes run.main → AreTyped classes run.main
        → (program : Linked) × IsRunnable (Some files) folder run.main program × EndsRun I.left I.gave run program first last ending }
{
    one_loading();
    one_judgement();
}

/// A listing that nothing cuts short is refused for want of its file exactly where there is none, and as too large exactly
/// where the file has too many bytes. Else the bytes of the file decide: it returns exactly where they are the file of a
/// class that can be listed, and has then printed the listing.
pub fn list_exactly<I: Source>()
    ensures missing { (path : List ℕ) (files : Files) (first last : I) (ending : Ending)
        → Answers I.left I.gave (ListOf path) (Some files) first last ending
        → (ending ≡ refused (MissingClass path) 0) ↔ (get files path ≡ None) }
    ensures too_large { (path bytes : List ℕ) (files : Files) (first last : I) (ending : Ending)
        → Answers I.left I.gave (ListOf path) (Some files) first last ending → get files path ≡ Some bytes
        → (ending ≡ refused (TooLarge ClassFileBytes (file_limit + 1) file_limit) 0) ↔ (file_limit < length bytes) }
    ensures bad_version { (path bytes : List ℕ) (major : ℕ) (files : Files) (first last : I) (ending : Ending)
        → Answers I.left I.gave (ListOf path) (Some files) first last ending → get files path ≡ Some bytes → length bytes ≤ file_limit
        → HasVersion bytes major → ¬ IsAccepted major → ending ≡ refused (BadVersion path major) 0 }
    ensures malformed { (path bytes : List ℕ) (files : Files) (first last : I) (ending : Ending)
        → Answers I.left I.gave (ListOf path) (Some files) first last ending → get files path ≡ Some bytes → length bytes ≤ file_limit
        → HasNoOtherVersion bytes → SpellsNone bytes → ending ≡ refused (Malformed path) 0 }
    ensures unsupported { (path bytes : List ℕ) (item : Feature) (files : Files) (first last : I) (ending : Ending)
        → Answers I.left I.gave (ListOf path) (Some files) first last ending → get files path ≡ Some bytes → length bytes ≤ file_limit
        → LeavesOut bytes item → ending ≡ refused (Unsupported path item) 0 }
    ensures returned { (path bytes : List ℕ) (class : ClassFile) (files : Files) (first last : I) (ending : Ending)
        → Answers I.left I.gave (ListOf path) (Some files) first last ending → get files path ≡ Some bytes → length bytes ≤ file_limit
        → IsListed bytes class → ending ≡ returned (listing class) 0 }
{
    one_class();
}

/// An assembly that nothing cuts short is refused as too large exactly where the text has too many bytes, of which one more
/// than the limit is read. Else the text is read to its end: where it is that of a class, the bytes of the class's file are
/// printed, and where it is that of none, its first bad line is told.
pub fn asm_exactly<I: Source>()
    ensures too_large { (text : List ℕ) (files : Option Files) (first last : I) (ending : Ending) → I.left first ≡ Some text
        → Answers I.left I.gave Assemble files first last ending
        → (ending ≡ refused (TooLarge AssemblyBytes (text_limit + 1) text_limit) (text_limit + 1))
        ↔ (text_limit < length text) }
    ensures returned { (text : List ℕ) (class : ClassFile) (files : Option Files) (first last : I) (ending : Ending) → I.left first ≡ Some text
        → Answers I.left I.gave Assemble files first last ending → length text ≤ text_limit → Assembles text class
        → ending ≡ returned (class_bytes class) (length text) }
    ensures bad_line { (text : List ℕ) (files : Option Files) (first last : I) (ending : Ending) → I.left first ≡ Some text
        → Answers I.left I.gave Assemble files first last ending
        → length text ≤ text_limit → ((class : ClassFile) → ¬ Assembles text class)
        → (line : ℕ) × StopsAt text line × (ending ≡ refused (BadLine line) (length text)) }
{}

/// A run over an input that tells its bytes comes to the states of the machine that is given all of them at the start: each is that state without
/// its input, what was read is a front of these bytes, and the source has the rest left, as the state of the machine has. The next step of both asks
/// for the same room, also where it asks the input.
pub fn told_runs<I: Source>()
    ensures { (machine : Machine) (given : List (List ℕ)) (bytes : List ℕ) (first last : I) (count : ℕ) (read : List ℕ) (state : State)
        → I.left first ≡ Some bytes → Reaches I.left I.gave machine (at machine given [] 0) first count read state last
        → ComesToTold machine given bytes count read state (I.left last) }
{
    leaves_unread();
    reads_a_front();
    requests_alike();
    ends_alike();
}

/// A collecting run makes the steps of the machine that never frees, and its store stays of the blocks and the part with which it was made.
pub fn never_frees<I: Source>()
    ensures steps { (run : Run) (program : Linked) (first last : I) (count : ℕ) (read : List ℕ) (moment : Moment Known) (state : State)
        → ComesTo I.left I.gave run program first count read moment state last
        → Reaches I.left I.gave (machine_of run program) (start_of run program) first count read state last }
    ensures config { (run : Run) (program : Linked) (first last : I) (count : ℕ) (read : List ℕ) (moment : Moment Known) (state : State)
        → ComesTo I.left I.gave run program first count read moment state last → moment.facts.config ≡ config_of run program }
{}
