// Pushing an optional item.
ghost use Rattle.std.specs.Prelude.{◌≡◌, ◌++◌, IfOk, option_to_list};

use crate::memory::NoMemory;

pub fn add_found<T: Copy>(items: &mut Vec<T>, found: Option<T>) -> Result<(), NoMemory>
    ensures { IfOk result (λ none. items.new.items ≡ items.old.items ++ option_to_list found) }
{
    match found {
        None => Ok(()),
        Some(item) => {
            items.push(item)?;
            Ok(())
        }
    }
}
