// Laws of the definitions.
ghost use Rattle.std.specs.Prelude.{◌≡◌, ◌≢◌, ℕ, List, [], map, IfSome, Some, slice_get};
ghost use Rattle.std.specs.List.{AllByRecursion};
ghost use Rattle.cb_asm_line.specs.Lines.{newline};
ghost use Rattle.cb_asm_line.specs.Mnemonics.{mnemonics};
ghost use Rattle.cb_asm_line.specs.Parameters.{parameters_of};
ghost use Rattle.cb_asm_line.specs.Quoting.{name_word, quoted};
ghost use Rattle.cb_asm_line.specs.Spelling.{program_lines};
ghost use Rattle.cb_asm_line.specs.Statements.{AreWhole, IsStatement, statement_text, statement_words, statements_of};
ghost use Rattle.cb_asm_line.specs.declared.program.Program.{Program};
ghost use Rattle.cb_asm_line.specs.declared.statement.Statement.{Statement};
ghost use Rattle.cb_names.specs.Types.{JavaMethodType, SpellsMethodType};
ghost use Rattle.cb_text.specs.Text.{AreUnits};

/// The types of the parameters of a method descriptor are those of the type that it spells (JVMS §4.3.3).
pub fn parameters_spelled()
    ensures { (text : List ℕ) (type : JavaMethodType) → SpellsMethodType text type → parameters_of text ≡ type.parameters }
{}

/// Two names, and two texts, are spelled differently.
pub fn one_spelling()
    ensures names { (one other : List ℕ) → AreUnits one → AreUnits other → name_word one ≡ name_word other → one ≡ other }
    ensures texts { (one other : List ℕ) → AreUnits one → AreUnits other → quoted one ≡ quoted other → one ≡ other }
{}

/// A name is that of one opcode at most.
pub fn one_opcode()
    ensures { (one other : ℕ) (name : List ℕ) → slice_get mnemonics one ≡ Some name → slice_get mnemonics other ≡ Some name
        → one ≡ other }
{}

/// No newline stands in a line of the format.
pub fn whole_lines()
    ensures { (statement : Statement) → IsStatement statement → AllByRecursion (λ unit. unit ≢ newline) (statement_text statement) }
{}

/// The lines of a program without a bad frame are those of its statements.
pub fn program_said()
    ensures { (program : Program) → AllByRecursion (λ method. IfSome method.code AreWhole) program.methods
        → map statement_words (statements_of program) ≡ program_lines program }
{}

/// A line of the format isn't empty.
pub fn some_lines()
    ensures { (statement : Statement) → IsStatement statement → statement_text statement ≢ [] }
{}

/// Two lines of the format are spelled differently.
pub fn one_statement()
    ensures { (one other : Statement) → IsStatement one → IsStatement other → statement_text one ≡ statement_text other → one ≡ other }
{}
