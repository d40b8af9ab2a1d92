//! Laws of the lines and their counts, for proofs above. Their calls do nothing.

ghost use Rattle.std.specs.Prelude.{◌≡◌, ℕ, ◌+◌, List, length};
ghost use Rattle.vt_script.specs.declared.drive.DriveLine.{DriveLine};
ghost use Rattle.bulk_lines.specs.Generator.{bulk_lines};
ghost use Rattle.bulk_lines.specs.Summaries.{command_count, move_count};

/// Each line is counted once, and there is one line more than are drawn.
pub fn lines_are_counted()
    ensures once { (lines : List DriveLine) → command_count lines + move_count lines ≡ length lines }
    ensures all { (seed count : ℕ) → length (bulk_lines seed count) ≡ count + 1 }
{}
