// The definition of the command line, as `clap` gets it. A command's definition is a function that isn't inlined, so that one frame doesn't
// have them all: a stack of 64 KB is enough for the program.
ghost use Rattle.std.specs.Prelude.{◌≡◌, codes, false, IfOk};
ghost use Rattle.clap.specs.declared.builder.command.Command.TheViews.{out-Command as fields_of};
ghost use Rattle.clap.specs.Words.{rule_of, app_of, with_rule, with_subcommand};
ghost use Rattle.kr_args.specs.Definition.{sources_rule, shards_rule, option_rule, flag_rule, with_span as span_added, with_range as range_added, with_workers as workers_added, with_sharing as sharing_added, with_options as options_added, bare_app, list_app, test_app, check_app, demo_app, shard_app, merge_app, trace_app, upgrade_app, emit_app, main_app, search_app, file_app, korat_app};

use clap::{Arg, ArgAction, Command as Definition};
use kr_base::NoMemory;
use std::alloc::Global;

/// The sources: 1 to 16 words.
fn sources_argument<'a>(alloc: Global) -> Arg<'a>
    ensures rule { rule_of result ≡ sources_rule }
    ensures local { result.global ≡ false }
{
    Arg::new(alloc, "source").required(true).num_args(1..=16)
}

/// `--name VALUE`, for a command without a global argument.
fn with_option<'a>(
    alloc: Global,
    command: Definition<'a>,
    name: &'a str,
) -> Result<Definition<'a>, NoMemory>
    requires { (fields_of command).has_globals ≡ false }
    ensures app { IfOk result (λ c. app_of c ≡ with_rule (app_of command.entry) (option_rule name.entry.now)) }
    ensures local { IfOk result (λ c. (fields_of c).has_globals ≡ false) }
{
    Ok(command.arg(Arg::new(alloc, name).long(name))?)
}

/// The shards: 1 to 64 words.
fn shards_argument<'a>(alloc: Global) -> Arg<'a>
    ensures rule { rule_of result ≡ shards_rule }
    ensures local { result.global ≡ false }
{
    Arg::new(alloc, "file").required(true).num_args(1..=64)
}

/// `[--from CUT] [--to CUT]`, for a command without a global argument.
fn with_span<'a>(alloc: Global, command: Definition<'a>) -> Result<Definition<'a>, NoMemory>
    requires { (fields_of command).has_globals ≡ false }
    ensures app { IfOk result (λ c. app_of c ≡ span_added (app_of command.entry)) }
    ensures local { IfOk result (λ c. (fields_of c).has_globals ≡ false) }
{
    let command = with_option(alloc, command, "from")?;
    with_option(alloc, command, "to")
}

/// `[--from CUT] [--to CUT] [--limit N]`, for a command without a global argument.
fn with_range<'a>(alloc: Global, command: Definition<'a>) -> Result<Definition<'a>, NoMemory>
    requires { (fields_of command).has_globals ≡ false }
    ensures app { IfOk result (λ c. app_of c ≡ range_added (app_of command.entry)) }
    ensures local { IfOk result (λ c. (fields_of c).has_globals ≡ false) }
{
    let command = with_span(alloc, command)?;
    with_option(alloc, command, "limit")
}

/// `[--workers N]`, for a command without a global argument.
fn with_workers<'a>(alloc: Global, command: Definition<'a>) -> Result<Definition<'a>, NoMemory>
    requires { (fields_of command).has_globals ≡ false }
    ensures app { IfOk result (λ c. app_of c ≡ workers_added (app_of command.entry)) }
    ensures local { IfOk result (λ c. (fields_of c).has_globals ≡ false) }
{
    with_option(alloc, command, "workers")
}

/// `[--trace]`, for a command without a global argument.
fn with_trace<'a>(alloc: Global, command: Definition<'a>) -> Result<Definition<'a>, NoMemory>
    requires { (fields_of command).has_globals ≡ false }
    ensures app { IfOk result (λ c. app_of c ≡ with_rule (app_of command.entry) (flag_rule (codes "trace"))) }
    ensures local { IfOk result (λ c. (fields_of c).has_globals ≡ false) }
{
    let trace = Arg::new(alloc, "trace")
        .long("trace")
        .action(ArgAction::SetTrue);
    Ok(command.arg(trace)?)
}

/// `[--workers N] [--window N] [--pool NAME] [--trace]`, for a command without a global argument.
fn with_sharing<'a>(alloc: Global, command: Definition<'a>) -> Result<Definition<'a>, NoMemory>
    requires { (fields_of command).has_globals ≡ false }
    ensures app { IfOk result (λ c. app_of c ≡ sharing_added (app_of command.entry)) }
    ensures local { IfOk result (λ c. (fields_of c).has_globals ≡ false) }
{
    let command = with_workers(alloc, command)?;
    let command = with_option(alloc, command, "window")?;
    let command = with_option(alloc, command, "pool")?;
    with_trace(alloc, command)
}

/// The options of a listing and of a test, for a command without a global argument.
fn with_options<'a>(alloc: Global, command: Definition<'a>) -> Result<Definition<'a>, NoMemory>
    requires { (fields_of command).has_globals ≡ false }
    ensures app { IfOk result (λ c. app_of c ≡ options_added (app_of command.entry)) }
    ensures local { IfOk result (λ c. (fields_of c).has_globals ≡ false) }
{
    let command = with_range(alloc, command)?;
    with_sharing(alloc, command)
}

/// `list FIN SOURCE..` with its options.
#[inline(never)]
fn list_definition<'a>(alloc: Global) -> Result<Definition<'a>, NoMemory>
    ensures app { IfOk result (λ c. app_of c ≡ list_app) }
    ensures local { IfOk result (λ c. (fields_of c).has_globals ≡ false) }
{
    let fin = Arg::new(alloc, "fin").required(true);
    let command = Definition::new(alloc, "list")
        .arg(fin)?
        .arg(sources_argument(alloc))?;
    with_options(alloc, command)
}

/// `test FIN METHOD SOURCE..` with its options.
#[inline(never)]
fn test_definition<'a>(alloc: Global) -> Result<Definition<'a>, NoMemory>
    ensures app { IfOk result (λ c. app_of c ≡ test_app) }
    ensures local { IfOk result (λ c. (fields_of c).has_globals ≡ false) }
{
    let fin = Arg::new(alloc, "fin").required(true);
    let method = Arg::new(alloc, "method").required(true);
    let command = Definition::new(alloc, "test")
        .arg(fin)?
        .arg(method)?
        .arg(sources_argument(alloc))?;
    with_options(alloc, command)
}

/// `check FIN SOURCE..`.
#[inline(never)]
fn check_definition<'a>(alloc: Global) -> Result<Definition<'a>, NoMemory>
    ensures app { IfOk result (λ c. app_of c ≡ check_app) }
    ensures local { IfOk result (λ c. (fields_of c).has_globals ≡ false) }
{
    let fin = Arg::new(alloc, "fin").required(true);
    Ok(
        Definition::new(alloc, "check")
            .arg(fin)?
            .arg(sources_argument(alloc))?,
    )
}

/// `demo N` with its option.
#[inline(never)]
fn demo_definition<'a>(alloc: Global) -> Result<Definition<'a>, NoMemory>
    ensures app { IfOk result (λ c. app_of c ≡ demo_app) }
    ensures local { IfOk result (λ c. (fields_of c).has_globals ≡ false) }
{
    let count = Arg::new(alloc, "nodes").required(true);
    let command = Definition::new(alloc, "demo").arg(count)?;
    with_workers(alloc, command)
}

/// `shard FIN SOURCE..` with its options.
#[inline(never)]
fn shard_definition<'a>(alloc: Global) -> Result<Definition<'a>, NoMemory>
    ensures app { IfOk result (λ c. app_of c ≡ shard_app) }
    ensures local { IfOk result (λ c. (fields_of c).has_globals ≡ false) }
{
    let fin = Arg::new(alloc, "fin").required(true);
    let command = Definition::new(alloc, "shard")
        .arg(fin)?
        .arg(sources_argument(alloc))?;
    let command = with_span(alloc, command)?;
    with_workers(alloc, command)
}

/// `merge FILE..`.
#[inline(never)]
fn merge_definition<'a>(alloc: Global) -> Result<Definition<'a>, NoMemory>
    ensures app { IfOk result (λ c. app_of c ≡ merge_app) }
    ensures local { IfOk result (λ c. (fields_of c).has_globals ≡ false) }
{
    Ok(Definition::new(alloc, "merge").arg(shards_argument(alloc))?)
}

/// `upgrade FIN`.
#[inline(never)]
fn upgrade_definition<'a>(alloc: Global) -> Result<Definition<'a>, NoMemory>
    ensures app { IfOk result (λ c. app_of c ≡ upgrade_app) }
    ensures local { IfOk result (λ c. (fields_of c).has_globals ≡ false) }
{
    let fin = Arg::new(alloc, "fin").required(true);
    Ok(Definition::new(alloc, "upgrade").arg(fin)?)
}

/// `trace FILE` with its options.
#[inline(never)]
fn trace_definition<'a>(alloc: Global) -> Result<Definition<'a>, NoMemory>
    ensures app { IfOk result (λ c. app_of c ≡ trace_app) }
    ensures local { IfOk result (λ c. (fields_of c).has_globals ≡ false) }
{
    let file = Arg::new(alloc, "file").required(true);
    let command = Definition::new(alloc, "trace").arg(file)?;
    let command = with_span(alloc, command)?;
    with_workers(alloc, command)
}

/// `emit FIN SOURCE..` with its options.
#[inline(never)]
fn emit_definition<'a>(alloc: Global) -> Result<Definition<'a>, NoMemory>
    ensures app { IfOk result (λ c. app_of c ≡ emit_app) }
    ensures local { IfOk result (λ c. (fields_of c).has_globals ≡ false) }
{
    let fin = Arg::new(alloc, "fin").required(true);
    let command = Definition::new(alloc, "emit")
        .arg(fin)?
        .arg(sources_argument(alloc))?;
    with_range(alloc, command)
}

/// The tool, without its commands.
fn bare_definition<'a>(alloc: Global) -> Definition<'a>
    ensures app { app_of result ≡ bare_app }
    ensures local { (fields_of result).has_globals ≡ false }
{
    Definition::new(alloc, "korat")
        .no_binary_name(true)
        .disable_help_flag(true)
        .disable_version_flag(true)
        .disable_help_subcommand(true)
        .subcommand_required(true)
}

/// The tool with one more command.
fn with_command<'a>(
    above: Definition<'a>,
    command: Definition<'a>,
) -> Result<Definition<'a>, NoMemory>
    requires { (fields_of command).has_globals ≡ false }
    ensures { IfOk result (λ c. app_of c ≡ with_subcommand (app_of above.entry) (app_of command.entry).top) }
{
    Ok(above.subcommand(command)?)
}

/// The tool with its first command.
fn with_list<'a>(alloc: Global) -> Result<Definition<'a>, NoMemory>
    ensures { IfOk result (λ c. app_of c ≡ with_subcommand bare_app list_app.top) }
{
    let list = list_definition(alloc)?;
    with_command(bare_definition(alloc), list)
}

/// The tool with its first two commands.
fn with_test<'a>(alloc: Global) -> Result<Definition<'a>, NoMemory>
    ensures { IfOk result (λ c. app_of c ≡ with_subcommand (with_subcommand bare_app list_app.top) test_app.top) }
{
    let korat = with_list(alloc)?;
    let test = test_definition(alloc)?;
    with_command(korat, test)
}

/// The tool with its first three commands.
fn with_check<'a>(alloc: Global) -> Result<Definition<'a>, NoMemory>
    ensures { IfOk result (λ c. app_of c ≡ with_subcommand (with_subcommand (with_subcommand bare_app list_app.top) test_app.top) check_app.top) }
{
    let korat = with_test(alloc)?;
    let check = check_definition(alloc)?;
    with_command(korat, check)
}

/// The tool with its first four commands.
fn with_demo<'a>(alloc: Global) -> Result<Definition<'a>, NoMemory>
    ensures { IfOk result (λ c. app_of c ≡ main_app) }
{
    let korat = with_check(alloc)?;
    let demo = demo_definition(alloc)?;
    with_command(korat, demo)
}

/// The tool with its first five commands.
fn with_shard<'a>(alloc: Global) -> Result<Definition<'a>, NoMemory>
    ensures { IfOk result (λ c. app_of c ≡ with_subcommand main_app shard_app.top) }
{
    let korat = with_demo(alloc)?;
    let shard = shard_definition(alloc)?;
    with_command(korat, shard)
}

/// The tool with its first six commands.
fn with_merge<'a>(alloc: Global) -> Result<Definition<'a>, NoMemory>
    ensures { IfOk result (λ c. app_of c ≡ search_app) }
{
    let korat = with_shard(alloc)?;
    let merge = merge_definition(alloc)?;
    with_command(korat, merge)
}

/// The tool with its first seven commands.
fn with_upgrade<'a>(alloc: Global) -> Result<Definition<'a>, NoMemory>
    ensures { IfOk result (λ c. app_of c ≡ with_subcommand search_app upgrade_app.top) }
{
    let korat = with_merge(alloc)?;
    let upgrade = upgrade_definition(alloc)?;
    with_command(korat, upgrade)
}

/// The tool with its first eight commands.
fn with_trace_command<'a>(alloc: Global) -> Result<Definition<'a>, NoMemory>
    ensures { IfOk result (λ c. app_of c ≡ file_app) }
{
    let korat = with_upgrade(alloc)?;
    let trace = trace_definition(alloc)?;
    with_command(korat, trace)
}

/// The tool with all its commands.
pub(crate) fn whole_definition<'a>(alloc: Global) -> Result<Definition<'a>, NoMemory>
    ensures { IfOk result (λ c. app_of c ≡ korat_app) }
{
    let korat = with_trace_command(alloc)?;
    let emit = emit_definition(alloc)?;
    with_command(korat, emit)
}
