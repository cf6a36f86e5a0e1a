//! What is told of a scene.
ghost use Rattle.std.specs.Prelude.{◌≡◌, IfOk, is_ok, option_map, string_bytes};
ghost use Rattle.serde_json.specs.View.{view};
ghost use Rattle.line_text.specs.Lines.{line_data};
ghost use Rattle.line_text.specs.Scenes.{scene_line_read};
ghost use Rattle.scene_cli.specs.Verdicts.{counts_text, entry_text, fault_text, name_under, nodes_in, place_text, scene_words, valid_text, verdict_text, why_text};

use gd_variant::OutOfMemory;
use line_text::{LineStop, read_scene};
use program_edge::LineWhy;
use scene_model::{Scene, SceneBad, SceneWhy};
use serde_json::Value;
use std::alloc::Global;

/// What is told, and whether the scene is valid.
#[derive(Drop)]
pub struct Verdict {
    pub is_valid: bool,
    pub text: String,
}

/// Why an entry is wrong, by name and in words.
fn words_of(why: SceneWhy) -> &'static str
    ensures { result.now ≡ scene_words why }
{
    match why {
        SceneWhy::NamePath =>
            "NamePath: a name in the path, or the scene's name, isn't a name, or the node above isn't listed before",
        SceneWhy::TwoNodes => "TwoNodes: an earlier entry of the list has this path or name",
        SceneWhy::TooMany =>
            "TooMany: more than 4096 entries of the list, 64 properties, 4096 methods or 8 synchronizers",
        SceneWhy::PropTwice =>
            "PropTwice: a property is named twice, or stands in two synchronizers of one node",
        SceneWhy::NoProp =>
            "NoProp: a synchronizer or a custom spawn names a property that isn't there",
        SceneWhy::TooManyOnChange =>
            "TooManyOnChange: a synchronizer has more than 64 properties with mode change",
        SceneWhy::NoTarget => "NoTarget: under or of names no node of this file",
        SceneWhy::SharedSpawnParent => "SharedSpawnParent: an earlier spawner has the same under",
        SceneWhy::TooManyScenes => "TooManyScenes: the spawner lists more than 255 scenes",
        SceneWhy::NoScene => "NoScene: the spawner names a scene that isn't in scenes",
        SceneWhy::Method =>
            "Method: a method's name isn't a name or comes twice, or sets names no property or no argument",
        SceneWhy::ValueLong => "ValueLong: a value has more than 65536 bytes in binary form",
        SceneWhy::Auth => "Auth: auth is below 1, or a synchronizer's isn't that of its node",
    }
}

/// What is wrong with a text that no scene stands in, by name and in words.
fn fault_words(why: LineWhy) -> &'static str
    ensures { result.now ≡ why_text why }
{
    match why {
        LineWhy::Json => "Json: this isn't one JSON value in UTF-8\n",
        LineWhy::Shape =>
            "Shape: a value is of another kind, an array has another length, a key is missing, or a number isn't a whole one of 64 bits\n",
        LineWhy::Name => "Name: a word or a key isn't known\n",
        LineWhy::Hex => "Hex: a text isn't an even number of hexadecimal digits\n",
        LineWhy::Range =>
            "Range: a number is outside its range, a text has U+0000, or a value isn't sound\n",
        LineWhy::Scene(_) => "Scene\n",
        LineWhy::NotBuilt => "NotBuilt\n",
    }
}

/// The text under a key of an entry of a list, where there is one.
fn name_of<'a>(scene: &'a Value, list: &str, number: usize, key: &str) -> Option<&'a str>
    ensures { option_map (λ s. s.now) result ≡ name_under list.now number key.now (view scene.now) }
{
    scene.get(list)?.get(number)?.get(key)?.as_str()
}

/// How many nodes a scene lists.
#[tactic(auto, using(crate::proofs::Items::items_counted))]
fn count_nodes(scene: &Value) -> usize
    ensures { result ≡ nodes_in (view scene.now) }
{
    match scene.get("nodes").and_then(Value::as_array) {
        Some(nodes) => nodes.len(),
        None => 0,
    }
}

/// An entry: its list, its number there, its path or name by its key, and why it is wrong.
fn entry(
    alloc: Global,
    scene: &Value,
    words: (&str, &str),
    number: usize,
    why: SceneWhy,
) -> Result<String, OutOfMemory>
    ensures { IfOk result (λ text. string_bytes text ≡ place_text words.entry.0.now number words.entry.1.now why (view scene.now)) }
{
    let (list, key) = words;
    let name = name_of(scene, list, number, key).unwrap_or("");
    let words = words_of(why);
    let text = format!(in alloc; "{list}[{number}] {name}: {words}\n")?;
    Ok(text)
}

/// The first wrong entry of a scene, and why it is wrong.
fn bad_entry(alloc: Global, scene: &Value, bad: SceneBad) -> Result<String, OutOfMemory>
    ensures { IfOk result (λ text. string_bytes text ≡ entry_text bad (view scene.now)) }
{
    let nodes = count_nodes(scene);
    let index = bad.index as usize;
    if index < nodes {
        entry(alloc, scene, ("nodes", "path"), index, bad.why)
    } else {
        entry(alloc, scene, ("scenes", "name"), index - nodes, bad.why)
    }
}

/// Why a text holds no valid scene.
fn fault(alloc: Global, line: &[u8], why: LineWhy) -> Result<String, OutOfMemory>
    ensures { IfOk result (λ text. string_bytes text ≡ fault_text why (line_data line.now)) }
{
    let LineWhy::Scene(bad) = why else {
        return Ok(String::from_str(alloc, fault_words(why))?);
    };
    match Value::from_slice(alloc, line) {
        Ok(scene) => bad_entry(alloc, &scene, bad),
        Err(e) => {
            if e.is_memory() {
                return Err(OutOfMemory);
            }
            Ok(String::from_str(alloc, fault_words(LineWhy::Json))?)
        }
    }
}

/// How many nodes and scenes there are, behind a word.
fn counted(alloc: Global, word: &str, nodes: usize, scenes: usize) -> Result<String, OutOfMemory>
    ensures { IfOk result (λ text. string_bytes text ≡ counts_text word.now nodes scenes) }
{
    let text = format!(in alloc; "{word}: nodes {nodes}, scenes {scenes}\n")?;
    Ok(text)
}

/// How many nodes and scenes a valid scene has.
fn counts(alloc: Global, scene: &Scene) -> Result<String, OutOfMemory>
    ensures { IfOk result (λ text. string_bytes text ≡ valid_text scene.now) }
{
    let (nodes, scenes) = (scene.nodes.len(), scene.scenes.len());
    counted(alloc, "valid", nodes, scenes)
}

/// What is told of a text: how many nodes and scenes its scene has, or what is wrong.
pub fn judge(alloc: Global, line: &[u8]) -> Result<Verdict, OutOfMemory>
    ensures text { IfOk result (λ v. string_bytes v.text ≡ verdict_text (line_data line.now) (scene_line_read line.now)) }
    ensures valid { IfOk result (λ v. v.is_valid ≡ is_ok (scene_line_read line.now)) }
{
    match read_scene(alloc, line) {
        Ok(scene) => Ok(Verdict {
            is_valid: true,
            text: counts(alloc, &scene)?,
        }),
        Err(LineStop::LineBad(why)) => Ok(Verdict {
            is_valid: false,
            text: fault(alloc, line, why)?,
        }),
        Err(LineStop::OutOfMemory) => Err(OutOfMemory),
    }
}
