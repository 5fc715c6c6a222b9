// The rustflags that matter for a C compiler: rustc's book, "Codegen Options", and for `-Z` The Rust Unstable Book,
// "Compiler flags".
ghost use Rattle.std.specs.Prelude.{◌≡◌, ◌⊎◌, [], Some, None, IfOk, IfErr, OnOk, false, unwrap_or};
ghost use Rattle.std.specs.Option.{option_copied};
ghost use Rattle.cc_flags.specs.Pairs.{pairs_of};
ghost use Rattle.cc_flags.specs.Fields.{flags_of, no_flags, refusal_of};
ghost use Rattle.cc_flags.specs.declared.error.FlagError.TheVariants.{NoMemory as WantsMemory};

use crate::FlagError;
use crate::fields::{
    features_of, invalid_pair, is_given, number_of, plugin_of, switch_of, text_of, text_or_true_of,
};
use crate::pairs::{Pair, pairs_of};
use cc_text::{Mem, Text, Words};
use std::alloc::Global;

/// The rustflags that matter for a C compiler, so that its code fits the Rust code that it is linked with. A field
/// is none, or false, where no flag sets it. Texts are as the flag has them, whatever they say.
#[derive(Drop, Debug, PartialEq, Eq)]
pub struct RustcCodegenFlags {
    /// Which branches are guarded on Arm, kinds between commas, as `bti,pac-ret`: `-Zbranch-protection` or
    /// `-Cbranch-protection`.
    pub branch_protection: Option<Text>,
    /// How far code and data may lie apart, as `small` or `large`: `-Ccode-model`.
    pub code_model: Option<Text>,
    /// Whether loops stay as they are, without vectors: `-Cno-vectorize-loops`.
    pub no_vectorize_loops: bool,
    /// Whether statements in a row stay as they are, without vectors: `-Cno-vectorize-slp`.
    pub no_vectorize_slp: bool,
    /// Whether Windows guards indirect calls, as `checks` or `nochecks`: `-Ccontrol-flow-guard`, `true` without a
    /// value.
    pub control_flow_guard: Option<Text>,
    /// Which kind of link-time optimisation is done: `-Clto`, `true` without a value. It gives no word.
    pub lto: Option<Text>,
    /// Whether code runs wherever it is loaded, as `pic` or `static`: `-Crelocation-model`.
    pub relocation_model: Option<Text>,
    /// Whether objects hold LLVM's bitcode besides machine code: `-Cembed-bitcode`.
    pub embed_bitcode: Option<bool>,
    /// Whether all functions keep frame pointers: `-Cforce-frame-pointers`.
    pub force_frame_pointers: Option<bool>,
    /// Whether functions leave the memory below the stack pointer alone, as kernels need it: `-Cno-redzone`.
    pub no_redzone: Option<bool>,
    /// Whether code does without a floating-point unit: `-Csoft-float`.
    pub soft_float: Option<bool>,
    /// The version of DWARF in which debug information is written: `-Cdwarf-version`.
    pub dwarf_version: Option<u32>,
    /// Which functions guard their stack, as `strong` or `all`: `-Zstack-protector` or `-Cstack-protector`.
    pub stack_protector: Option<Text>,
    /// Whether the linker optimises by its plugin: `-Clinker-plugin-lto`, which a value that names the plugin asks
    /// for too.
    pub linker_plugin_lto: Option<bool>,
    /// The processor's features in all `-Ctarget-feature`, in order, each with its sign, as `+avx2`.
    pub target_features: Words,
    /// The processor that code is made for, by rustc's name: `-Ctarget-cpu`. It gives no word: C compilers name
    /// them otherwise.
    pub target_cpu: Option<Text>,
}

/// The fields that pairs give.
fn flags_of(alloc: Global, pairs: &[Pair]) -> Mem<RustcCodegenFlags>
    ensures { IfOk result (λ flags. flags ≡ flags_of pairs.now) }
{
    let branch_protection = text_of(pairs, &["-Zbranch-protection", "-Cbranch-protection"])?;
    let code_model = text_of(pairs, &["-Ccode-model"])?;
    let no_vectorize_loops = is_given(pairs, &["-Cno-vectorize-loops"]);
    let no_vectorize_slp = is_given(pairs, &["-Cno-vectorize-slp"]);
    let control_flow_guard = text_or_true_of(alloc, pairs, &["-Ccontrol-flow-guard"])?;
    let lto = text_or_true_of(alloc, pairs, &["-Clto"])?;
    let relocation_model = text_of(pairs, &["-Crelocation-model"])?;
    let embed_bitcode = switch_of(pairs, &["-Cembed-bitcode"]);
    let force_frame_pointers = switch_of(pairs, &["-Cforce-frame-pointers"]);
    let no_redzone = switch_of(pairs, &["-Cno-redzone"]);
    let soft_float = switch_of(pairs, &["-Csoft-float"]);
    let dwarf_version = number_of(pairs, &["-Cdwarf-version"]);
    let stack_protector = text_of(pairs, &["-Zstack-protector", "-Cstack-protector"])?;
    let linker_plugin_lto = plugin_of(pairs, &["-Clinker-plugin-lto"]);
    let target_features = features_of(alloc, pairs)?;
    let target_cpu = text_of(pairs, &["-Ctarget-cpu"])?;
    Ok(RustcCodegenFlags {
        branch_protection,
        code_model,
        no_vectorize_loops,
        no_vectorize_slp,
        control_flow_guard,
        lto,
        relocation_model,
        embed_bitcode,
        force_frame_pointers,
        no_redzone,
        soft_float,
        dwarf_version,
        stack_protector,
        linker_plugin_lto,
        target_features,
        target_cpu,
    })
}

impl RustcCodegenFlags {
    /// The fields of rustflags as Cargo hands them to build scripts in `CARGO_ENCODED_RUSTFLAGS`: parts between
    /// U+001F (The Cargo Book, "Environment Variables"). Of several flags with one key the last counts, and
    /// features add up. Flags that matter for no field change nothing; the empty text gives no flags.
    ///
    /// Refused at the first flag without the value that it needs, or with a version of DWARF that is no number of
    /// 32 bits: the error has its key. Refused for memory too. A refusal leaves nothing.
    pub fn parse(alloc: Global, encoded: &str) -> Result<RustcCodegenFlags, FlagError>
        ensures flags { IfOk result (λ flags. flags ≡ flags_of (pairs_of encoded.now)) }
        ensures valid { OnOk result (refusal_of encoded.now ≡ None) }
        ensures refused { IfErr result (λ e. (e ≡ WantsMemory) ⊎ (refusal_of encoded.now ≡ Some e)) }
        ensures empty { encoded.now ≡ [] → IfOk result (λ flags. flags ≡ no_flags) }
    {
        let pairs = pairs_of(alloc, encoded)?;
        if let Some(pair) = invalid_pair(&pairs) {
            let key = pair.key.try_clone()?;
            return Err(FlagError::InvalidFlag(key));
        }
        let flags = flags_of(alloc, &pairs)?;
        Ok(flags)
    }

    /// Whether the linker is to optimise by its plugin; no where no flag says so. It takes no memory.
    pub fn linker_plugin_lto(&self) -> bool
        ensures { result ≡ unwrap_or self.now.linker_plugin_lto false }
    {
        self.linker_plugin_lto.unwrap_or(false)
    }

    /// The processor that rustc makes code for, by its own name, where a flag says so. It takes no memory.
    pub fn target_cpu(&self) -> Option<&str>
        ensures { option_copied result ≡ self.now.target_cpu }
    {
        match &self.target_cpu {
            Some(cpu) => Some(cpu.as_str()),
            None => None,
        }
    }
}
