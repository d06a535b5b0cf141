// Programs, frames and descriptors by which the definitions are tried: each is computed.
ghost use Rattle.std.specs.Prelude.{◌≡◌, [], ◌∷◌, None, Some, codes, map};
ghost use Rattle.cb_asm_list.specs.Expansion.{expanded_behind};
ghost use Rattle.cb_asm_line.specs.Parameters.{argument_words, parameters_of};
ghost use Rattle.cb_asm_line.specs.declared.frame.FrameType.TheVariants.{Int};
ghost use Rattle.cb_names.specs.Types.{type_text};
ghost use Rattle.cb_asm_list.specs.Listing.{listing, program_of};
ghost use Rattle.cb_asm_record.specs.Record.{class_of};
ghost use Rattle.cb_asm.specs.Samples.{first_bytes, first_lines, first_program, forms_bytes, forms_lines, forms_program, framed_class, framed_lines, full_frames, short_frames, text_of_lines};
ghost use Rattle.cb_asm_line.specs.Spelling.{program_text};
ghost use Rattle.cb_classfile.specs.Class.{class_bytes};

/// A class that prints 42: its text, its file, and its listing; and the listing with two frames, of which one is bad.
pub fn first_sample()
    ensures text { program_text first_program ≡ text_of_lines first_lines }
    ensures bytes { class_bytes (class_of first_program) ≡ first_bytes }
    ensures listed { listing (class_of first_program) ≡ text_of_lines first_lines }
    ensures framed { listing framed_class ≡ text_of_lines framed_lines }
{}

/// A class with each form of operand and each kind of line: its text, its file, and its listing.
pub fn forms_sample()
    ensures text { program_text forms_program ≡ text_of_lines forms_lines }
    ensures listed { listing (class_of forms_program) ≡ text_of_lines forms_lines }
    ensures read_off { program_of (class_of forms_program) ≡ forms_program }
    ensures bytes { class_bytes (class_of forms_program) ≡ forms_bytes }
{}

/// Frames of each kind in full.
pub fn frames_in_full()
    ensures { expanded_behind [] None (Some (Int ∷ [])) short_frames ≡ full_frames }
{}

/// The types of parameters, and the count of their words with `this`.
pub fn parameters_sample()
    ensures words { argument_words (codes "(I[[JJLany;D)Z") ≡ 8 }
    ensures texts { map type_text (parameters_of (codes "(I[[JJLany;D)Z")) ≡ codes "I" ∷ codes "[[J" ∷ codes "J" ∷ codes "Lany;" ∷ codes "D" ∷ [] }
{}
