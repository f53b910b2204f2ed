//! How many lines scripts have.

ghost use Rattle.std.specs.Prelude.{◌≡◌, ◌≤◌};
ghost use Rattle.jfs_run.specs.Tasks.{plan_of, lines_in};

use jfs_plain::Line;

/// The lines of all scripts.
pub fn lines_in(scripts: &[Vec<Line>]) -> usize
    requires { lines_in (plan_of scripts.now) ≤ 65536 }
    ensures { result ≡ lines_in (plan_of scripts.now) }
{
    let mut count = 0;
    for script in scripts {
        count += script.len();
    }
    count
}
