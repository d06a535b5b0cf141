// The law of fronts.
ghost use Rattle.std.specs.Prelude.{ℕ, ◌<◌, take};
ghost use Rattle.cb_asm_line.specs.Spelling.{program_lines};
ghost use Rattle.cb_asm_line.specs.declared.program.Program.{Program as AnyProgram};
ghost use Rattle.cb_asm_prefix.specs.Closing.{Close};
ghost use Rattle.cb_asm_record.specs.Grammar.{IsProgram};

/// Any lines at the front of a program close: all that stands behind them is taken off, and little is added.
pub fn fronts_close()
    ensures { (program : AnyProgram) (count : ℕ) → IsProgram program → 0 < count → Close (take count (program_lines program)) }
{}
