//! The page's text after its data: the one with `page/predicate.js`. `.ci/explore_page.py --write` writes it.

/// The page's text after its data: the one with `page/predicate.js`.
pub(crate) const PREDICATE: &[u8] = b"\
    <script>\n\
    \"use strict\";\n\
    // A predicate that is typed: its text is read as the program reads it, and in words is said why it is none.\n\
    \n\
    // Why a text is no predicate of this run.\n\
    class Unread extends Error {}\n\
    \n\
    const TOKEN = /[ \\t]*(?:([A-Za-z_]\\w*|\\d+|==|!=|<=|>=|[<>()+\\-*.])|$)/y;\n\
    const KEYWORDS = [\"and\", \"or\", \"not\", \"true\", \"false\"];\n\
    const NESTED = 64;\n\
    const NUMBER_LIMIT = 2n ** 63n - 1n;\n\
    const FACTOR_LIMIT = 2n ** 31n - 1n;\n\
    \n\
    function tokensOf(text) {\n\
    \x20 const tokens = [];\n\
    \x20 TOKEN.lastIndex = 0;\n\
    \x20 while (TOKEN.lastIndex < text.length) {\n\
    \x20   const at = TOKEN.lastIndex;\n\
    \x20   const match = TOKEN.exec(text);\n\
    \x20   if (match === null) {\n\
    \x20     throw new Unread(\"\xe2\x80\x9c\" + text.slice(at).trim().slice(0, 8) + \"\xe2\x80\x9d begins no wor\
    d, number or sign.\");\n\
    \x20   }\n\
    \x20   if (match[1] === undefined) break;\n\
    \x20   tokens.push(match[1]);\n\
    \x20 }\n\
    \x20 return tokens;\n\
    }\n\
    \n\
    // Reads the tree of a predicate's text, as the data has it. An `and` and an `or` group from the left.\n\
    class PredicateText {\n\
    \x20 constructor(run, text) {\n\
    \x20   this.run = run;\n\
    \x20   this.tokens = tokensOf(text);\n\
    \x20   this.at = 0;\n\
    \x20   this.depth = 0;\n\
    \x20 }\n\
    \n\
    \x20 take(...words) {\n\
    \x20   return words.includes(this.tokens[this.at]) ? this.tokens[this.at++] : null;\n\
    \x20 }\n\
    \n\
    \x20 need(...words) {\n\
    \x20   const word = this.take(...words);\n\
    \x20   if (word === null) throw this.wrong(words.join(\" \"));\n\
    \x20   return word;\n\
    \x20 }\n\
    \n\
    \x20 wrong(wanted) {\n\
    \x20   const found = this.tokens[this.at];\n\
    \x20   return new Unread(\"Expected \" + wanted + (found === undefined ? \" at the end.\" : \", not \xe2\x80\x9c\
    \" + found + \"\xe2\x80\x9d.\"));\n\
    \x20 }\n\
    \n\
    \x20 whole() {\n\
    \x20   const tree = this.disjunction();\n\
    \x20   if (this.at < this.tokens.length) throw this.wrong(\"and, or, or the end\");\n\
    \x20   return tree;\n\
    \x20 }\n\
    \n\
    \x20 joined(word, part) {\n\
    \x20   let tree = part();\n\
    \x20   while (this.take(word) !== null) tree = [word, tree, part()];\n\
    \x20   return tree;\n\
    \x20 }\n\
    \n\
    \x20 inside(part) {\n\
    \x20   this.depth++;\n\
    \x20   if (this.depth > NESTED) throw new Unread(\"More than \" + NESTED + \" parentheses and nots stand insi\
    de each other.\");\n\
    \x20   const tree = part();\n\
    \x20   this.depth--;\n\
    \x20   return tree;\n\
    \x20 }\n\
    \n\
    \x20 disjunction() {\n\
    \x20   return this.joined(\"or\", () => this.joined(\"and\", () => this.operand()));\n\
    \x20 }\n\
    \n\
    \x20 operand() {\n\
    \x20   if (this.take(\"not\") !== null) return [\"not\", this.inside(() => this.operand())];\n\
    \x20   if (this.take(\"(\") !== null) {\n\
    \x20     const tree = this.inside(() => this.disjunction());\n\
    \x20     this.need(\")\");\n\
    \x20     return tree;\n\
    \x20   }\n\
    \x20   const constant = this.take(\"true\", \"false\");\n\
    \x20   return constant === null ? this.comparison() : [constant];\n\
    \x20 }\n\
    \n\
    \x20 comparison() {\n\
    \x20   const left = this.sum();\n\
    \x20   const relation = this.need(...Object.values(RELATIONS));\n\
    \x20   return [Object.keys(RELATIONS).find((word) => RELATIONS[word] === relation), left, this.sum()];\n\
    \x20 }\n\
    \n\
    \x20 sum() {\n\
    \x20   const terms = [[this.take(\"-\") ?? \"+\", ...this.term()]];\n\
    \x20   for (let sign = this.take(\"+\", \"-\"); sign !== null; sign = this.take(\"+\", \"-\")) {\n\
    \x20     terms.push([sign, ...this.term()]);\n\
    \x20   }\n\
    \x20   return terms;\n\
    \x20 }\n\
    \n\
    \x20 term() {\n\
    \x20   if (!/^\\d/.test(this.tokens[this.at] ?? \"\")) return this.reference();\n\
    \x20   const number = BigInt(this.tokens[this.at++]);\n\
    \x20   const isFactor = this.take(\"*\") !== null;\n\
    \x20   if (number > (isFactor ? FACTOR_LIMIT : NUMBER_LIMIT)) throw new Unread(\"The number \" + number + \" \
    is too great.\");\n\
    \x20   return isFactor ? [String(number), ...this.reference()] : [String(number)];\n\
    \x20 }\n\
    \n\
    \x20 name(wanted) {\n\
    \x20   const word = this.tokens[this.at] ?? \"\";\n\
    \x20   if (!/^[A-Za-z_]/.test(word) || KEYWORDS.includes(word)) throw this.wrong(wanted);\n\
    \x20   this.at++;\n\
    \x20   return word;\n\
    \x20 }\n\
    \n\
    \x20 reference() {\n\
    \x20   const process = this.name(\"a number or a variable, as \" + this.run.names[0] + \".x\");\n\
    \x20   const p = this.run.names.indexOf(process);\n\
    \x20   if (p < 0) throw new Unread(\"No process is called \xe2\x80\x9c\" + process + \"\xe2\x80\x9d.\");\n\
    \x20   this.need(\".\");\n\
    \x20   const variable = this.name(\"a variable of \" + process);\n\
    \x20   const v = this.run.vars[p].findIndex((each) => each.name === variable);\n\
    \x20   if (v < 0) throw new Unread(\"Process \" + process + \" has no variable \xe2\x80\x9c\" + variable + \"\
    \xe2\x80\x9d.\");\n\
    \x20   return [p, v];\n\
    \x20 }\n\
    }\n\
    \n\
    function parsePredicate(run, text) {\n\
    \x20 return new PredicateText(run, text).whole();\n\
    }\n\
    \n\
    // The predicate that a text is, or in words why it is none; nothing of an empty text.\n\
    function typedPredicate(run, text) {\n\
    \x20 if (text.trim() === \"\") return null;\n\
    \x20 try {\n\
    \x20   return { node: readPredicate(parsePredicate(run, text), run.names, run.vars), wrong: \"\" };\n\
    \x20 } catch (error) {\n\
    \x20   if (!(error instanceof Unread)) throw error;\n\
    \x20   return { node: null, wrong: error.message };\n\
    \x20 }\n\
    }\n\
    \n\
    if (typeof module === \"object\") {\n\
    \x20 Object.assign(globalThis, require(\"./run.js\"));   // on the page, scripts share their names\n\
    \x20 module.exports = { parsePredicate, typedPredicate };\n\
    }\n\
    </script>\n\
    ";
