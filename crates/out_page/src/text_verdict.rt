//! The page's text after its data: the one with `page/verdict.js`. `.ci/explore_page.py --write` writes it.

/// The page's text after its data: the one with `page/verdict.js`.
pub(crate) const VERDICT: &[u8] = b"\
    <script>\n\
    \"use strict\";\n\
    // What the answers say in words, of each predicate and of the run, and whether they are as wished. Nothing h\
    ere touches\n\
    // the page.\n\
    \n\
    const NAMES_SHOWN = 3;\n\
    const AS_WISHED = \"as wished\";\n\
    const NOT_AS_WISHED = \"not as wished\";\n\
    \n\
    // What the answers say of the whole run, in two words: an answer that is yes counts before one that is unkno\
    wn.\n\
    function verdictOf({ possibly: [possibly], definitely: [definitely] }) {\n\
    \x20 if (definitely === \"yes\") return \"always happens\";\n\
    \x20 if (possibly === \"yes\") return \"can happen\";\n\
    \x20 return possibly === \"no\" ? \"cannot happen\" : \"unknown\";\n\
    }\n\
    \n\
    // Of at most so many names each, and how many more there are.\n\
    function listed(names) {\n\
    \x20 return names.slice(0, NAMES_SHOWN).join(\", \") +\n\
    \x20   (names.length > NAMES_SHOWN ? \" and \" + (names.length - NAMES_SHOWN) + \" more\" : \"\");\n\
    }\n\
    \n\
    // The verdict on the run: which wishes are broken, or without wishes which predicates happen.\n\
    function verdictText(run) {\n\
    \x20 if (run.refusal !== null) return \"Refused: \" + run.refusal[0].trim().replace(/^refused /, \"\");\n\
    \x20 if (run.cycle !== null) return \"Refused: a causal cycle\";\n\
    \x20 return run.wishes.length > 0 ? wishesText(run) : answersText(run.predicates);\n\
    }\n\
    \n\
    // Which predicates happen, and how many are unknown.\n\
    function answersText(predicates) {\n\
    \x20 const [only] = predicates;\n\
    \x20 if (predicates.length === 1) {\n\
    \x20   return verdictOf(only) === \"unknown\" ? \"It is unknown whether \" + only.name + \" can happen\"\n\
    \x20     : only.name + \" \" + verdictOf(only);\n\
    \x20 }\n\
    \x20 const of = (...verdicts) => predicates.filter((each) => verdicts.includes(verdictOf(each))).map(({ name \
    }) => name);\n\
    \x20 const [happen, always, unknown] = [of(\"can happen\", \"always happens\"), of(\"always happens\"), of(\"\
    unknown\")];\n\
    \x20 const all = \" of \" + predicates.length + \" predicates \";\n\
    \x20 if (happen.length === 0) {\n\
    \x20   return unknown.length === 0 ? \"None\" + all + \"can happen\" : unknown.length + all +\n\
    \x20     (unknown.length === 1 ? \"is unknown\" : \"are unknown\") +\n\
    \x20     (unknown.length < predicates.length ? \"; no other can happen\" : \"\");\n\
    \x20 }\n\
    \x20 const parts = [happen.length + all + \"can happen: \" + listed(happen)];\n\
    \x20 if (always.length > 0) parts.push(listed(always) + \" always \" + (always.length === 1 ? \"happens\" : \"\
    happen\"));\n\
    \x20 if (unknown.length > 0) parts.push(unknown.length + (unknown.length === 1 ? \" is\" : \" are\") + \" unk\
    nown\");\n\
    \x20 return parts.join(\"; \");\n\
    }\n\
    \n\
    // ---- wishes ----------------------------------------------------------------------------------------------\
    -------\n\
    \n\
    // The question that a wish is about, and the answer that is as wished.\n\
    const WISHES = { never: [\"possibly\", \"no\"], always: [\"definitely\", \"yes\"], sometimes: [\"possibly\", \
    \"yes\"] };\n\
    \n\
    // The wishes of a page, each with its predicate, and what came of it.\n\
    function readWishes(run, wishes) {\n\
    \x20 return wishes.map(([kind, k]) => ({ kind, k, came: cameOf(run.predicates[k], kind) }));\n\
    }\n\
    \n\
    // What came of a wish: an answer that is unknown grants none.\n\
    function cameOf(predicate, kind) {\n\
    \x20 const [question, wished] = WISHES[kind];\n\
    \x20 const [answer] = predicate[question];\n\
    \x20 return answer === \"unknown\" ? \"unknown\" : answer === wished ? AS_WISHED : NOT_AS_WISHED;\n\
    }\n\
    \n\
    // What came of all wishes of these: one that is broken counts before one that is unknown. Of none nothing.\n\
    function cameOfAll(wishes) {\n\
    \x20 return [NOT_AS_WISHED, \"unknown\", AS_WISHED].find((came) => wishes.some((each) => each.came === came))\
    \x20?? \"\";\n\
    }\n\
    \n\
    // Why a wish is broken, granted or unknown, as words that follow the predicate's name.\n\
    function wishReason(predicate, { kind, came }) {\n\
    \x20 if (came === \"unknown\") return kind === \"always\" ? \"may not always happen\" : \"may happen or not\"\
    ;\n\
    \x20 if (kind !== \"always\" || came === AS_WISHED) return verdictOf(predicate);\n\
    \x20 return predicate.possibly[0] === \"no\" ? \"cannot happen\" : \"need not happen\";\n\
    }\n\
    \n\
    // How many of the wishes came to something, and of which predicates.\n\
    function wishesText(run) {\n\
    \x20 const { wishes } = run;\n\
    \x20 const of = (came) => wishes.filter((each) => each.came === came);\n\
    \x20 const reasons = (some) => {\n\
    \x20   const words = some.slice(0, NAMES_SHOWN).map((each) =>\n\
    \x20     run.predicates[each.k].name + \" \" + wishReason(run.predicates[each.k], each));\n\
    \x20   return [...new Set(words)].join(\"; \") +\n\
    \x20     (some.length > NAMES_SHOWN ? \"; and \" + (some.length - NAMES_SHOWN) + \" more\" : \"\");\n\
    \x20 };\n\
    \x20 const [broken, unknown] = [of(NOT_AS_WISHED), of(\"unknown\")];\n\
    \x20 const verb = (some) => (some.length === 1 ? \" is \" : \" are \");\n\
    \x20 if (broken.length + unknown.length === 0) {\n\
    \x20   return wishes.length === 1 ? \"The wish is granted: \" + reasons(wishes) : \"All \" + wishes.length +\n\
    \x20     \" wishes are granted\";\n\
    \x20 }\n\
    \x20 const [first, word] = broken.length > 0 ? [broken, \"broken\"] : [unknown, \"unknown\"];\n\
    \x20 const count = wishes.length === 1 ? \"The wish is \" + word\n\
    \x20   : first.length + \" of \" + wishes.length + \" wishes\" + verb(first) + word;\n\
    \x20 return count + \": \" + reasons(first) + (broken.length > 0 && unknown.length > 0\n\
    \x20   ? \"; \" + unknown.length + verb(unknown) + \"unknown\" : \"\");\n\
    }\n\
    \n\
    // A predicate's wish in words, as its card says it.\n\
    function wishText(predicate, wish) {\n\
    \x20 const asked = { never: \"is never to happen\", always: \"is always to happen\", sometimes: \"is to be po\
    ssible\" };\n\
    \x20 return \"Wished: it \" + asked[wish.kind] + \". \" + (wish.came === \"unknown\" ? \"That is unknown, whi\
    ch grants no wish.\"\n\
    \x20   : \"It \" + wishReason(predicate, wish) + \".\");\n\
    }\n\
    \n\
    // ---- where the page opens --------------------------------------------------------------------------------\
    -------\n\
    \n\
    // The evidence with which a page opens: of the first broken wish that has some, and else of the first predic\
    ate that\n\
    // can happen. Of it the predicate, and whether it is a cut, or an observation that avoids it.\n\
    function firstEvidence(run) {\n\
    \x20 const broken = run.wishes.filter(({ came }) => came === NOT_AS_WISHED);\n\
    \x20 for (const { kind, k } of broken) {\n\
    \x20   if (kind === \"never\") return { k, is: \"cut\" };\n\
    \x20   if (kind === \"always\") return { k, is: \"film\" };\n\
    \x20 }\n\
    \x20 const k = run.predicates.findIndex((each) => each.possibly[0] === \"yes\");\n\
    \x20 return k < 0 ? null : { k, is: \"cut\" };\n\
    }\n\
    \n\
    // ---- the session's name ----------------------------------------------------------------------------------\
    -------\n\
    \n\
    // The folder in which all streams lie, as the arguments named them; if they have none, the processes.\n\
    function sessionName(run) {\n\
    \x20 const folders = run.sources.filter(([file]) => file !== \"\").map(([file]) => file.split(\"/\").slice(0,\
    \x20-1));\n\
    \x20 const [first] = folders;\n\
    \x20 if (first === undefined) return listed(run.names);\n\
    \x20 let length = 0;\n\
    \x20 while (length < first.length && folders.every((parts) => parts[length] === first[length])) length++;\n\
    \x20 const parts = first.slice(0, length).filter((part) => part !== \"\" && part !== \".\" && part !== \"..\"\
    );\n\
    \x20 if (parts.length === 0) return listed(run.names);\n\
    \x20 return parts.slice(/\\p{L}/u.test(parts[parts.length - 1]) ? -1 : -2).join(\"/\");\n\
    }\n\
    \n\
    function titleText(run) {\n\
    \x20 return (run.refusal !== null ? \"\" : sessionName(run) + \": \") + verdictText(run) + \" \xe2\x80\x93 mo\
    nitor explore\";\n\
    }\n\
    \n\
    if (typeof module === \"object\") {\n\
    \x20 module.exports = { verdictOf, verdictText, readWishes, cameOfAll, wishText, firstEvidence, sessionName, \
    titleText };\n\
    }\n\
    </script>\n\
    ";
